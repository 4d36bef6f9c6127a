use std::alloc::AllocError;

/// Why there are no slabs.
#[derive(Debug, Drop)]
pub enum SlabFault {
    /// There are more than 131,072 spans and marks.
    TooManyRegions,
    NoMemory,
}

impl From<AllocError> for SlabFault {
    ghost use Rattle.std.specs.Prelude.{◌≡◌};
    ghost use Rattle.plan_slab.specs.declared.fault.SlabFault.TheVariants.{NoMemory};

    ghost from_gives = { λ _ r. r ≡ NoMemory };

    fn from(_: AllocError) -> SlabFault {
        SlabFault::NoMemory
    }
}
