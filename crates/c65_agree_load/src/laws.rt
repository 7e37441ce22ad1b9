// Laws of loads, each the contract of a function that does nothing.
ghost use Rattle.c65_agree_load.specs.Laws.{BytesAreLoaded, FetchesAreFollowed};
ghost use Rattle.c65_agree_load.specs.Objects.{NamedAreLoaded, ObjectsAreLoaded, TargetsAreLoaded};

/// Bytes are loaded from where a place lies.
pub fn bytes_are_loaded()
    ensures { BytesAreLoaded }
{}

/// The lines of a load do the step that fetches a value.
pub fn fetches_are_followed()
    ensures { FetchesAreFollowed }
{}

/// So do they the steps that name an object and fetch its value.
pub fn named_are_loaded()
    ensures { NamedAreLoaded }
{}

/// A tree that loads an object does so at its lines.
pub fn objects_are_loaded()
    ensures { ObjectsAreLoaded }
{}

/// What a pointer names is loaded behind the pointer's lines.
pub fn targets_are_loaded()
    ensures { TargetsAreLoaded }
{}
