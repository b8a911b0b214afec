//! Laws of texts.
ghost use Rattle.lt_history.specs.Merging.{MergedIsHistory};
ghost use Rattle.lt_history.specs.RandomTables.{RandomTables};
ghost use Rattle.lt_history.specs.SummaryRows.{SummaryRows};

/// The table answers questions of random tables as an independent reading of the rules says, and leaves the modes that it
/// says: among them questions that end another's buffer.
pub fn random_tables()
    ensures { RandomTables }
{}

/// Worked summaries come out so.
pub fn summary_rows()
    ensures { SummaryRows }
{}

/// The receipts of all passes of a legal history, by ascending place, are the receipts of that history.
pub fn merged_is_the_history()
    ensures { MergedIsHistory }
{}
