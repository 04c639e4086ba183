ghost use Rattle.laws.specs.WalkLaws.{WalksAgree};

// A walk on the environment of a conforming list answers as the list does, with a literal of the type foretold.
pub fn walks_agree()
    ensures { WalksAgree }
{}
