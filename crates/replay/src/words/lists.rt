use crate::fault::Fault;
use crate::words::{Args, Argument};

/// No words.
impl Argument for () {
    fn read(args: &mut Args) -> Result<(), Fault> {
        Ok(())
    }
}

impl<A: Argument, B: Argument> Argument for (A, B) {
    fn read(args: &mut Args) -> Result<(A, B), Fault> {
        Ok((args.read()?, args.read()?))
    }
}

impl<A: Argument, B: Argument, C: Argument> Argument for (A, B, C) {
    fn read(args: &mut Args) -> Result<(A, B, C), Fault> {
        Ok((args.read()?, args.read()?, args.read()?))
    }
}

impl<A: Argument, B: Argument, C: Argument, D: Argument> Argument for (A, B, C, D) {
    fn read(args: &mut Args) -> Result<(A, B, C, D), Fault> {
        let (a, b) = args.read()?;
        let (c, d) = args.read()?;
        Ok((a, b, c, d))
    }
}

impl<A: Argument, B: Argument, C: Argument, D: Argument, E: Argument> Argument for (A, B, C, D, E) {
    fn read(args: &mut Args) -> Result<(A, B, C, D, E), Fault> {
        let (a, b) = args.read()?;
        let (c, d, e) = args.read()?;
        Ok((a, b, c, d, e))
    }
}

impl<A: Argument, B: Argument, C: Argument, D: Argument, E: Argument, F: Argument> Argument
    for (A, B, C, D, E, F) {
    fn read(args: &mut Args) -> Result<(A, B, C, D, E, F), Fault> {
        let (a, b, c) = args.read()?;
        let (d, e, f) = args.read()?;
        Ok((a, b, c, d, e, f))
    }
}

impl<
    A: Argument,
    B: Argument,
    C: Argument,
    D: Argument,
    E: Argument,
    F: Argument,
    G: Argument,
> Argument for (A, B, C, D, E, F, G) {
    fn read(args: &mut Args) -> Result<(A, B, C, D, E, F, G), Fault> {
        let (a, b, c) = args.read()?;
        let (d, e, f, g) = args.read()?;
        Ok((a, b, c, d, e, f, g))
    }
}
