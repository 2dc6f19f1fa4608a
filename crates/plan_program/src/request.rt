// What the arguments ask for.
ghost use Rattle.std.specs.Prelude.{◌≡◌, map, string_bytes};
ghost use Rattle.plan_program.specs.Requests.{request_of};

/// What the program is asked for.
#[derive(Clone, Copy, PartialEq, Eq, Debug)]
pub enum Request {
    /// The key ranges of the plan whose sheet the input is; `typed` if the input is a terminal.
    Ranges { typed: bool },
    /// How the program is used.
    Usage,
    /// Something that it does not do.
    Unknown,
}

impl Request {
    /// What arguments ask for: nothing behind the program's name asks for key ranges, and `--help`
    /// alone for the usage. `typed` says whether the input is a terminal.
    pub fn of(arguments: &[String], typed: bool) -> Request
        ensures { result ≡ request_of (map string_bytes arguments.now) typed }
    {
        match arguments {
            [] | [_] => Request::Ranges { typed },
            [_, only] if only.as_str() == "--help" => Request::Usage,
            _ => Request::Unknown,
        }
    }
}
