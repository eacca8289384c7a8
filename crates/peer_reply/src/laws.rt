//! Laws of bodies, and of reading them, each the contract of a function that does nothing.
ghost use Rattle.peer_reply.specs.Laws.{BodiesDiffer, HasOneFault, BodyHasNoFault};

/// No body is a proper prefix of another body, and equal bodies have equal values.
pub fn bodies_differ()
    ensures { BodiesDiffer }
{}

/// At most one fault applies to bytes that are no body.
pub fn has_one_fault()
    ensures { HasOneFault }
{}

/// A body has no fault.
pub fn body_has_no_fault()
    ensures { BodyHasNoFault }
{}
