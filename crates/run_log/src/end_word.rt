// How a run ended, as one word.

ghost use Rattle.text_rows.specs.Rows.{Appends};
ghost use Rattle.run_log.specs.Log.{end_word};

use mesh_run::End;
use std::alloc::AllocError;

pub(crate) fn write_end(text: &mut String, end: &End) -> Result<(), AllocError>
    ensures { Appends result text.old text.new (end_word end.now) }
{
    match end {
        End::Done => text.push_str("done")?,
        End::Stuck => text.push_str("stuck")?,
        End::Stopped => text.push_str("stopped")?,
    }
    Ok(())
}
