// What holds of programs and texts. Each function's contract is the law, and its body is empty.
ghost use Rattle.load_meaning.specs.Laws.{DownLaw, ObjectiveLaw, OneGroundLaw, OneLoadLaw, OneProgramLaw, ProgramLaw, SameModelsLaw, UpLaw};

/// A program grounds to one thing at most: more instances than the limit, a first instance that is outside and its
/// cause, too many integer variables, too large an objective, or one canonical ground program.
pub fn one_ground()
    ensures { OneGroundLaw }
{}

/// Texts under names load to one thing at most (`load`), and have one program at most (`program`).
pub fn one_load()
    ensures load { OneLoadLaw }
    ensures program { OneProgramLaw }
{}

/// Texts that load to a ground program have a program (`has`), and its constraint stable models are those of the
/// ground program: an answer is one exactly where it says what one of the texts says (`both`), each of the texts is
/// said by one of the ground program (`down`) and the other way round (`up`), with the same objective (`objective`).
pub fn loading_keeps_models()
    ensures has { ProgramLaw }
    ensures both { SameModelsLaw }
    ensures down { DownLaw }
    ensures up { UpLaw }
    ensures objective { ObjectiveLaw }
{}
