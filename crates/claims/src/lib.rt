// What is claimed of the definitions: the demands, document 01's examples, and what documents 01 and 02 say of their rules.
#![tactic(auto)]

ghost use Rattle.claims.specs.Claims.{Claims};

// The claims hold. It does nothing when called: that it is proved is what counts.
pub fn hold()
    ensures { Claims }
{}
