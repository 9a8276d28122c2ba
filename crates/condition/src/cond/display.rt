ghost use Rattle.std.specs.Prelude.{Some};
ghost use Rattle.condition.specs.Masks.{suffix_of};

use crate::cond::Cond;
use std::fmt;

impl fmt::Display for Cond {
    ghost output = { λ x. Some (suffix_of x.mask) };

    fn fmt<W: fmt::Write>(&self, f: &mut fmt::Formatter<W>) -> fmt::Result {
        let s = match self.mask {
            0 => "never",
            1 => "o",
            2 => "h",
            3 => "nle",
            4 => "l",
            5 => "nhe",
            6 => "lh",
            7 => "ne",
            8 => "e",
            9 => "nlh",
            10 => "he",
            11 => "nl",
            12 => "le",
            13 => "nh",
            14 => "no",
            _ => "always",
        };
        f.write_str(s)
    }
}
