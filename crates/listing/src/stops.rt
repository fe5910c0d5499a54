// Why nothing could be made of a file.
ghost use Rattle.std.specs.Prelude.{◌≡◌};
ghost use Rattle.listing.specs.declared.stops.Stop.TheVariants.{AtFault, Memory};

use callfile::Fault;
use std::alloc::AllocError;

#[derive(Clone, Copy)]
pub(crate) enum Stop {
    AtFault(Fault),
    Memory(AllocError),
}

impl From<Fault> for Stop {
    ghost from_gives = { λ f s. s ≡ AtFault f };

    fn from(fault: Fault) -> Stop {
        Stop::AtFault(fault)
    }
}

impl From<AllocError> for Stop {
    ghost from_gives = { λ e s. s ≡ Memory e };

    fn from(error: AllocError) -> Stop {
        Stop::Memory(error)
    }
}
