//! The task that the arguments of the command line state.

ghost use Rattle.std.specs.Prelude.{◌≡◌};
ghost use Rattle.subst_filter_lib.specs.Arguments.{are_pairs};

/// A task of the program: the kind of its source, and where its variables come from.
#[derive(Clone, Copy, Debug, PartialEq, Eq)]
pub enum Task {
    /// Expand bytes with the variables of the arguments after the first one.
    Bytes,
    /// Expand a text with the variables of the arguments after the first one.
    Text,
    /// Expand a text with the variables of the environment.
    Environment,
}

impl Task {
    ghost use Rattle.subst_filter_lib.specs.Task.{task_of};

    /// Returns the task of the arguments after the program's name, or `None` if they are wrong. They are
    /// right if the first one is `bytes` or `text` and all others have the form NAME=VALUE, or if the only
    /// one is `env`.
    pub fn of_arguments(arguments: &[String]) -> Option<Task>
        ensures task { result ≡ task_of arguments.now }
    {
        let [first, rest @ ..] = arguments else {
            return None;
        };
        match first.as_str() {
            "bytes" if are_pairs(rest) => Some(Task::Bytes),
            "text" if are_pairs(rest) => Some(Task::Text),
            "env" if rest.is_empty() => Some(Task::Environment),
            _ => None,
        }
    }
}

/// Returns whether all arguments have the form NAME=VALUE.
fn are_pairs(arguments: &[String]) -> bool
    ensures { result ≡ are_pairs arguments.now }
{
    arguments.iter().all(|it| it.as_bytes().contains(&b'='))
}
