ghost use Rattle.std.specs.Prelude.{◌≡◌};
ghost use Rattle.model.specs.Rows.{complete, steady};
ghost use Rattle.values.specs.Numbers.{processing_number};

use values::states::Processing;

// The work on the wafer is over.
pub fn is_complete(state: Processing) -> bool
    ensures { result ≡ complete (processing_number state) }
{
    !matches!(
        state,
        Processing::NeedsProcessing | Processing::InProcess | Processing::NoneYet
    )
}

// Neither none yet nor LOST.
pub fn is_steady(state: Processing) -> bool
    ensures { result ≡ steady (processing_number state) }
{
    !matches!(state, Processing::NoneYet | Processing::Lost)
}
