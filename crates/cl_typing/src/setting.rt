//! Where statements stand.

ghost use Rattle.std.specs.Prelude.{◌≡◌};
ghost use Rattle.cl_typing.specs.Settings.{inside, in_loop, in_switch, setting};

use cl_types::TypeId;
use cl_variables::Where;

/// Where a statement stands: the function's result, whether `break` and `continue` may stand there, and where its
/// variables are.
#[derive(Clone, Copy, PartialEq, Eq, Debug)]
pub struct Setting {
    pub result: TypeId,
    pub breaks: bool,
    pub continues: bool,
    pub variables: Where,
}

impl Setting {
    /// The outermost block of a function.
    pub fn of(kernel: bool, gives: TypeId) -> Setting
        ensures { result ≡ setting kernel gives }
    {
        Setting {
            result: gives,
            breaks: false,
            continues: false,
            variables: if kernel {
                Where::InKernel
            } else {
                Where::Inside
            },
        }
    }

    /// In a block.
    pub fn inside(self) -> Setting
        ensures { result ≡ inside self }
    {
        Setting {
            variables: Where::Inside,
            ..self
        }
    }

    /// In a loop.
    pub fn in_loop(self) -> Setting
        ensures { result ≡ in_loop self }
    {
        Setting {
            breaks: true,
            continues: true,
            variables: Where::Inside,
            ..self
        }
    }

    /// In a `switch`.
    pub fn in_switch(self) -> Setting
        ensures { result ≡ in_switch self }
    {
        Setting {
            breaks: true,
            variables: Where::Inside,
            ..self
        }
    }
}
