// Where a file is at fault.
ghost use Rattle.std.specs.Prelude.{◌≡◌};
ghost use Rattle.callfile.specs.Faults.{at};

use books::causes::Cause;

// The parts of a file.
#[derive(Clone, Copy)]
pub enum Part {
    File,
    Field,
    Entry,
    Card,
    Call,
    Rest,
}

// What is wrong, in which part, and the byte where that part begins.
#[derive(Clone, Copy)]
pub struct Fault {
    pub cause: Cause,
    pub part: Part,
    pub byte: usize,
}

impl Fault {
    pub(crate) fn new(cause: Cause, part: Part, byte: usize) -> Fault
        ensures { result ≡ at cause part byte }
    {
        Fault { cause, part, byte }
    }

    // The fault of a field of the header.
    pub(crate) fn field(cause: Cause, byte: usize) -> Fault
        ensures { result ≡ at cause Part.Field byte }
    {
        Fault::new(cause, Part::Field, byte)
    }

    // The fault of the file as a whole.
    pub(crate) fn file(cause: Cause) -> Fault
        ensures { result ≡ at cause Part.File 0 }
    {
        Fault::new(cause, Part::File, 0)
    }
}
