ghost use Rattle.laws.specs.OrderLaws.{OrderLaws};

// The orders of terms and of term types are total; a set holds each of its elements once, in that order.
pub fn order_stands()
    ensures { OrderLaws }
{}
