//! Laws of the service of waiting requests, which hold apart from any code (`docs/model.md`, "The service").

ghost use Rattle.fe_service.specs.Service.{ServesLegally};

/// The entries that serve usable waiting requests are legal one after the other, if there is a place for
/// each.
pub fn service_is_legal()
    ensures { ServesLegally }
{}
