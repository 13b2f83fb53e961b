//! What holds of each layout. Nothing here runs.

ghost use Rattle.cl_types.specs.Laws.{TypesAreSound, ScalarsAscend, ScalarsArePlaces, PlacesAreScalars, PlacesAreOne, ScalarsLieApart, PlacesLieWithin, PlacesAreAligned, SizesAreMultiples};

/// A type's scalars stand in the order of their offsets, none over another and all inside its size. Each is
/// a place to which its path leads, and each place of a scalar is one of them.
pub fn scalars_are_places()
    ensures ascend { ScalarsAscend }
    ensures are_places { ScalarsArePlaces }
    ensures are_all { PlacesAreScalars }
{}

/// A path leads to one offset and type, and scalars of different paths don't meet. Each place lies inside
/// the size, at a multiple of its alignment; and a size is a multiple of its own.
pub fn places_lie_apart()
    ensures one { PlacesAreOne }
    ensures apart { ScalarsLieApart }
    ensures within { PlacesLieWithin }
    ensures aligned { PlacesAreAligned }
    ensures multiple { SizesAreMultiples }
{}

/// The types of a table are such that these laws hold of them.
pub fn types_are_sound()
    ensures { TypesAreSound }
{}
