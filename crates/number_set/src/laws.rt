//! Laws of numbers in rising order, proved: a body that does nothing, and a contract that is the
//! law.
ghost use Rattle.number_set.specs.Laws.{NumbersAreAUnion, NumbersThereChangeNothing, NumbersStayRising, NumbersAreFew, RisingListsAreOne, AmongIsContains, AlsoIsAUnion};

/// Numbers that were added are among the others then, no others are, and they rise as before; and
/// there is one rising list of the same numbers.
pub fn number_laws()
    ensures union { NumbersAreAUnion }
    ensures there { NumbersThereChangeNothing }
    ensures rising { NumbersStayRising }
    ensures few { NumbersAreFew }
    ensures one { RisingListsAreOne }
    ensures among { AmongIsContains }
    ensures also { AlsoIsAUnion }
{}
