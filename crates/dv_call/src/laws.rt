// What the definitions of calls say.
ghost use Rattle.dv_call.specs.Landings.{InvokesLand};

/// An invoke on words does just what it comes to.
pub fn invokes_land()
    ensures law { InvokesLand }
{}
