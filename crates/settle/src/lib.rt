//! Settling: the fields of all uses are checked, and then each is filled with its distance, by any two families.

#![tactic(auto)]

ghost use Rattle.std.specs.Prelude.{◌≡◌, pos, ◌+ℤ◌, ◌-ℤ◌};
ghost use Rattle.refusal.specs.Refusals.{answered};
ghost use Rattle.field.specs.Family.{family};
ghost use Rattle.book.specs.Labels.{place_of};
ghost use Rattle.book.specs.Listed.{labels_in};
ghost use Rattle.settle_law.specs.Settle.{family_for, uses_refusal, patched_all};
ghost use Rattle.settle_law.specs.Settled.{Bytes, Settles};
ghost use Rattle.settle.specs.Plan.{distance_from, window_from, window_past, planned, filled};

use book::label_book::LabelBook;
use book::target::{Slot, Target, Use};
use field::distance::checked_distance;
use field::family::{FieldPatch, FieldRead};
use refusal::{Reason, Refusal};

/// Where targets lie, from the section's start: the labels, and the symbols by their numbers.
#[derive(Clone, Copy)]
pub struct Places<'a> {
    pub labels: &'a LabelBook,
    pub symbols: &'a [i64],
}

/// The distance from an instruction to a symbol's place and an offset. In place of its call the sum is not proved.
fn apart(from: usize, place: i64, offset: i32) -> i128
    ensures { result ≡ (place +ℤ offset) -ℤ pos from }
{
    place as i128 + offset as i128 - from as i128
}

impl Places<'_> {
    /// The distance that a use's field is to hold, if its target lies somewhere.
    fn distance_of(&self, field: &Use) -> Option<i128>
        ensures { result ≡ distance_from field.now.place (place_of (labels_in self.now.labels.now) self.now.symbols.now field.now.target) }
    {
        match field.target {
            Target::Label(label) => {
                let Slot::Bound(place) = self.labels.slot(label) else {
                    return None;
                };
                Some(place as i128 - field.place as i128)
            }
            Target::Symbol(symbol, offset) => {
                let place = self.symbols.get(symbol)?;
                Some(apart(field.place, *place, offset))
            }
        }
    }
}

/// Where the family's bytes for a use lie in the code, as far as it reaches.
fn window<F: FieldRead>(field: &Use, len: usize) -> (usize, usize)
    ensures from { result.0 ≡ window_from (F.FieldRead.fields.table field.now.kind) field.now.place len }
    ensures past { result.1 ≡ window_past (F.FieldRead.fields.table field.now.kind) field.now.place len }
{
    let (lead, size) = F::info(field.kind).map_or((0, 0), |info| (info.lead, info.size));
    let from = field.place.saturating_add(lead as usize).min(len);
    let past = from.saturating_add(size as usize).min(len);
    (from, past)
}

// A use goes with what was computed for it, step by step: a struct for each step would be no plainer.

/// The distance that a use gets, or why it gets none.
fn plan<F: FieldRead>(field: &Use, wanted: Option<i128>, len: usize) -> Result<i64, Refusal>
    ensures { result ≡ planned F.FieldRead.fields field.now len wanted }
{
    let distance = wanted.ok_or(Refusal::at(field.place, Reason::Unbound))?;
    let (from, past) = window::<F>(field, len);
    checked_distance::<F>(field.kind, past - from, distance).map_err(|cause| cause.at(field.place))
}

/// The same, by the family of the use's target.
fn plan_use<L: FieldPatch, S: FieldPatch>(
    field: &Use,
    wanted: Option<i128>,
    len: usize,
) -> Result<i64, Refusal>
    ensures { result ≡ planned (family_for (family L.FieldRead.fields L.FieldPatch.patched) (family S.FieldRead.fields S.FieldPatch.patched) field.now.target).fields field.now len wanted }
{
    // families are types, which a match chooses and no closure can hold
    match field.target {
        Target::Label(_) => plan::<L>(field, wanted, len),
        Target::Symbol(_, _) => plan::<S>(field, wanted, len),
    }
}

/// Checks every use, in their order, by the family of its target.
fn check<L: FieldPatch, S: FieldPatch>(
    uses: &[Use],
    places: &Places,
    code: &[u8],
) -> Result<(), Refusal>
    ensures answers { result ≡ answered (uses_refusal (family L.FieldRead.fields L.FieldPatch.patched) (family S.FieldRead.fields S.FieldPatch.patched) (place_of (labels_in places.now.labels.now) places.now.symbols.now) code.now uses.now) tt }
    ensures bytes { Bytes code.now }
{
    for field in uses {
        let wanted = places.distance_of(field);
        let _ = plan_use::<L, S>(field, wanted, code.len())?;
    }
    Ok(())
}

/// Fills the field of one use, by its family; one that is refused stays as it is.
fn fill_one<F: FieldPatch>(field: &Use, wanted: Option<i128>, code: &mut [u8])
    ensures { code.new ≡ filled (family F.FieldRead.fields F.FieldPatch.patched) field.now code.old wanted }
{
    let len = code.len();
    if let Ok(distance) = plan::<F>(field, wanted, len) {
        let (from, past) = window::<F>(field, len);
        let _ = F::patch(field.kind, &mut code[from..past], distance);
    }
}

/// The same, by the family of the use's target.
fn fill_use<L: FieldPatch, S: FieldPatch>(field: &Use, wanted: Option<i128>, code: &mut [u8])
    ensures { code.new ≡ filled (family_for (family L.FieldRead.fields L.FieldPatch.patched) (family S.FieldRead.fields S.FieldPatch.patched) field.now.target) field.now code.old wanted }
{
    match field.target {
        Target::Label(_) => fill_one::<L>(field, wanted, code),
        Target::Symbol(_, _) => fill_one::<S>(field, wanted, code),
    }
}

/// Fills the field of each use, in their order.
fn fill<L: FieldPatch, S: FieldPatch>(uses: &[Use], places: &Places, code: &mut [u8])
    ensures { code.new ≡ patched_all (family L.FieldRead.fields L.FieldPatch.patched) (family S.FieldRead.fields S.FieldPatch.patched) (place_of (labels_in places.now.labels.now) places.now.symbols.now) code.old uses.now }
{
    for field in uses {
        let wanted = places.distance_of(field);
        fill_use::<L, S>(field, wanted, code);
    }
}

/// Checks every use, in the order recorded, and then fills each with the distance from its instruction to its target. The answer is the first
/// refusal, at the use's instruction; refused, the code stays as it is.
pub fn settle<L: FieldPatch, S: FieldPatch>(
    uses: &[Use],
    places: &Places,
    code: &mut [u8],
) -> Result<(), Refusal>
    ensures { Settles (family L.FieldRead.fields L.FieldPatch.patched) (family S.FieldRead.fields S.FieldPatch.patched) (labels_in places.now.labels.now) places.now.symbols.now uses.now code.old result code.new }
{
    check::<L, S>(uses, places, code)?;
    fill::<L, S>(uses, places, code);
    Ok(())
}
