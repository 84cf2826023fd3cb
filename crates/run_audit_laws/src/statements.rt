// Laws.

ghost use Rattle.run_audit_laws.specs.Runs.{NothingIsUnsettled, ScansStandWhole, ReportsOfRunsAreTrue, ShownIsFound, ReportsAreTexts, RunsCanBeTold, TextsAreReports};

use audit_laws::statements::reports_are_true;
use cluster_runs::members::members_are_of_script;
use cluster_runs::replay::{nothing_is_replayed, requests_are_told, runs_replay};
use cluster_runs::shards_statements::left_logs_are_found;
use script_lang::statements::{scripts_are_narrow, scripts_are_short};
use script_runs::book_laws::{acknowledged_have_rows, others_have_none, transactions_add_to_books};
use session_books::statements::books_make_the_report;

/// The parts of each scan of an acknowledged transaction adjoin, and none of them is empty.
pub fn scans_stand_whole()
    ensures { ScansStandWhole }
{
    members_are_of_script();
}

/// No request stands without an answer.
pub fn nothing_is_unsettled()
    ensures { NothingIsUnsettled }
{
    requests_are_told();
}

/// So the report is true of the logs found and of those left, whatever a crash keeps.
pub fn reports_of_runs_are_true()
    ensures { ReportsOfRunsAreTrue }
{
    reports_are_true();
    scans_stand_whole();
    nothing_is_unsettled();
}

/// What a `show` showed is what the logs stand for that the next run finds.
pub fn shown_is_found()
    ensures { ShownIsFound }
{
    left_logs_are_found();
    runs_replay();
    nothing_is_replayed();
}

/// The lines of the pairs, and behind them the report, are the text of what both tell.
pub fn reports_are_texts()
    ensures { ReportsAreTexts }
{}

/// Where the sessions are those of a script's text, the report has only what a report can tell of: what the lines ask for is within its bounds, and as many
/// transactions are counted as acknowledged as there are lines.
pub fn runs_can_be_told()
    ensures { RunsCanBeTold }
{
    books_make_the_report();
    transactions_add_to_books();
    acknowledged_have_rows();
    others_have_none();
    scripts_are_narrow();
    scripts_are_short();
    reports_of_runs_are_true();
}

/// So the lines are read back as what they told, where they aren't too long.
pub fn texts_are_reports()
    ensures { TextsAreReports }
{
    reports_are_texts();
    runs_can_be_told();
}
