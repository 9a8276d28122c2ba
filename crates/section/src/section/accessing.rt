ghost use Rattle.std.specs.Prelude.{◌≡◌, List, [], ◌∷◌};
ghost use Rattle.refusal.specs.Refusals.{first_refusal, answered, answer};
ghost use Rattle.address.specs.Access.{opcodes, plan as plan_of};
ghost use Rattle.section.specs.Accessing.{opcode_checks, planned_checks};
ghost use Rattle.refusal.specs.Tests.{any, all};
ghost use Rattle.catalogue_law.specs.Catalogue.{misfit as misfit_of, catalogued};
ghost use Rattle.catalogue.specs.Listed.{entries_in};
ghost use Rattle.book.specs.Books.{lost_label, leaves_use};
ghost use Rattle.book.specs.Listed.{labels_in};
ghost use Rattle.address.specs.declared.frame.Frame.{Frame};
ghost use Rattle.address.specs.Convention.{standard};
ghost use Rattle.address.specs.Address.{mode, target_of};
ghost use Rattle.form.specs.declared.instr.Entry.{Entry};
ghost use Rattle.address.specs.Held.{listed, items_of, when_ok};
ghost use Rattle.law.specs.Section.{written, Accesses};
ghost use Rattle.section.specs.State.{state};
ghost use Rattle.section.specs.Fits.{Fits};

use crate::section::Section;
use access::plan::plan;
use address::access::{Access, AccessPlan, Aimed, MemAccess};
use address::args::MemArg;
use catalogue::catalogue::Catalogue;
use catalogue::entry::misfit;
use codec::encode::encode;
use form::instr::Entry;
use refusal::{Reason, Refusal};

/// Whether an opcode that is given does not fit its form.
fn misfits(entry: Option<Entry>) -> bool
    ensures { result ≡ any (λ e. misfit_of e.form e.opcode) (listed entry) }
{
    entry.is_some_and(misfit)
}

/// Whether an opcode is catalogued, if it is given.
fn is_held(catalogue: &Catalogue, entry: Option<Entry>) -> bool
    ensures { result ≡ all (λ e. catalogued (entries_in catalogue.now) e.form e.opcode) (listed entry) }
{
    entry.is_none_or(|e| catalogue.holds(e))
}

fn any_misfits(given: &[Option<Entry>]) -> bool
    ensures { result ≡ any (λ o. any (λ e. misfit_of e.form e.opcode) (listed o)) given.now }
{
    given.iter().any(|e| misfits(*e))
}

fn all_held(catalogue: &Catalogue, given: &[Option<Entry>]) -> bool
    ensures { result ≡ all (λ o. all (λ e. catalogued (entries_in catalogue.now) e.form e.opcode) (listed o)) given.now }
{
    given.iter().all(|e| is_held(catalogue, *e))
}

/// MISFIT and OPCODE, over the opcodes that an access is given.
fn check_opcodes(catalogue: &Catalogue, access: &Access) -> Result<(), Reason>
    ensures { result ≡ answered (first_refusal (opcode_checks (entries_in catalogue.now) (opcodes access.now))) tt }
{
    let given = access.opcodes();
    if any_misfits(&given) {
        return Err(Reason::Misfit);
    }
    if !all_held(catalogue, &given) {
        return Err(Reason::Opcode);
    }
    Ok(())
}

impl<L, S> Section<L, S> {
    /// Whether an address names a label that is not reserved, or given up.
    fn names_lost(&self, mem: &MemArg) -> bool
        ensures { (fr : Frame) → result ≡ lost_label (labels_in self.now.labels) (target_of (mode standard fr mem.now)) }
    {
        match *mem {
            MemArg::Label { target } => !self.labels.slot(target).is_usable(),
            _ => false,
        }
    }

    /// What an access writes, or why it does not, as far as space does not matter.
    fn planned(&self, catalogue: &Catalogue, request: &MemAccess) -> Result<AccessPlan, Reason>
        ensures { when_ok items_of result ≡ answered (first_refusal (planned_checks (entries_in catalogue.now) (labels_in self.now.labels) (plan_of standard request.now.access request.now.may_trap request.now.mem request.now.frame.now))) (plan_of standard request.now.access request.now.may_trap request.now.mem request.now.frame.now).items }
    {
        check_opcodes(catalogue, &request.access)?;
        plan(request, self.names_lost(&request.mem))
    }

    /// The same, refused at the end of what is written.
    fn planned_here(
        &self,
        catalogue: &Catalogue,
        request: &MemAccess,
    ) -> Result<AccessPlan, Refusal>
        ensures { when_ok items_of result ≡ answer self.now.len (first_refusal (planned_checks (entries_in catalogue.now) (labels_in self.now.labels) (plan_of standard request.now.access request.now.may_trap request.now.mem request.now.frame.now))) (plan_of standard request.now.access request.now.may_trap request.now.mem request.now.frame.now).items }
    {
        self.planned(catalogue, request)
            .map_err(|reason| Refusal::at(self.len, reason))
    }

    /// Writes an instruction at the end, and records the use of what it is aimed at.
    fn write_item(&mut self, code: &mut [u8], item: &Aimed)
        requires { Fits (state self.old [] code.old) (item.now ∷ []) }
        ensures { (es : List Entry) → state self.new es code.new ≡ written (state self.old es code.old) (item.now ∷ []) }
    {
        if let Ok(encoded) = encode(&item.instr) {
            self.extend(code, &encoded, item.aim);
        }
    }

    fn write_if(&mut self, code: &mut [u8], item: &Option<Aimed>)
        requires { Fits (state self.old [] code.old) (listed item.now) }
        ensures { (es : List Entry) → state self.new es code.new ≡ written (state self.old es code.old) (listed item.now) }
    {
        if let Some(item) = *item {
            self.write_item(code, &item);
        }
    }

    /// Writes what an access was planned to write.
    fn write_plan(&mut self, code: &mut [u8], plan: &AccessPlan)
        requires { Fits (state self.old [] code.old) (items_of plan.now) }
        ensures { (es : List Entry) → state self.new es code.new ≡ written (state self.old es code.old) (items_of plan.now) }
    {
        self.write_if(code, &plan.first);
        self.write_if(code, &plan.second);
        self.write_item(code, &plan.access);
    }

    /// Writes an access at the end, after what it needs to reach its address. Refused by BUFFER, MISFIT, OPCODE, OPERAND, FRAME, TEMPORARY,
    /// FAR, FORM, LABEL, ODD, CONSTANT, FULL and ROOM.
    pub fn access(
        &mut self,
        catalogue: &Catalogue,
        code: &mut [u8],
        request: &MemAccess,
    ) -> Result<(), Refusal>
        ensures step { Accesses standard (state self.old (entries_in catalogue.now) code.old) request.now.access request.now.may_trap request.now.mem request.now.frame.now result (state self.new (entries_in catalogue.now) code.new) }
        ensures room { self.new.room ≡ self.old.room }
    {
        if self.is_other(code) {
            return Err(Refusal::at(self.len, Reason::Buffer));
        }
        let plan = self.planned_here(catalogue, request)?;
        self.space(request.mem.target().is_some(), plan.size())?;
        self.write_plan(code, &plan);
        Ok(())
    }
}
