ghost use Rattle.laws.specs.HistoryLaws.{HistoriesDetermined};

// The relation of histories pins every answer, and every history has its outcome.
pub fn histories_determined()
    ensures { HistoriesDetermined }
{}
