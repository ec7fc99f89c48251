//! Laws of what images of a device stand for (`docs/model.md`, "The keeper"), and of histories over stops
//! (`docs/headline.md`). Each function states one, and does nothing.

ghost use Rattle.fe_keeper.specs.Damage.{StandsForOne, AreToldApart, StopsJoin};

/// An image stands for at most one state.
pub fn images_stand_for_one()
    ensures { StandsForOne }
{}

/// No image stands for a state and is unformatted or damaged, and none is both unformatted and damaged.
pub fn stores_are_told_apart()
    ensures { AreToldApart }
{}

/// What a stop left of a history and the history that goes on from there are one history.
pub fn stops_join()
    ensures { StopsJoin }
{}
