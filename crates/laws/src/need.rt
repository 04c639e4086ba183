ghost use Rattle.laws.specs.NeedLaws.{NeedLaws};

// The need of a value counts its term before equal elements merge, and is at least the records that the term takes.
pub fn need_stands()
    ensures { NeedLaws }
{}
