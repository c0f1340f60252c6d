//! What is written tells what was reported.

ghost use Rattle.desk_run.specs.TextLaws.{HistoriesAreRead, ListsAreRead, ReportsAreRead};

/// Two different reports of a command have two different texts, and so have two different histories of the same commands.
pub fn texts_tell_reports()
    ensures report { ReportsAreRead }
    ensures lists { ListsAreRead }
    ensures histories { HistoriesAreRead }
{}
