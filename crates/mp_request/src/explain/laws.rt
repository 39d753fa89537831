//! A law of the guide.
ghost use Rattle.mp_request.specs.explain.Laws.{TellsOfEach};

/// The guide has an entry under the title of each code, whatever the code holds, of each word of `check`, and of each kind of module.
pub fn tells_of_each()
    ensures { TellsOfEach }
{}
