// What is said of a history whose changes are kept.
ghost use Rattle.wb_keeping.specs.Granting.Granting.{no_edit, Grants, Answers};

use wb_history::History;
use wb_kept::Machine;

/// A history, as a machine whose changes are kept.
pub struct KeptHistory;

impl Machine<History> for KeptHistory {
    ghost use Rattle.wb_keeping.specs.Granting.Leading.{changes_lead, one_history};

    ghost start = { no_edit };

    ghost grants = { Grants };

    ghost answers = { Answers };

    ghost leads = { changes_lead };

    ghost one = { one_history };
}
