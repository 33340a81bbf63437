//! The form that is wanted.
ghost use Rattle.std.specs.Prelude.{◌≡◌};
ghost use Rattle.convert.specs.Form.{form_number};

#[derive(Clone, Copy)]
pub enum Form {
    Old,
    Current,
}

impl Form {
    // The version of a file in it.
    pub fn number(self) -> usize
        ensures { result ≡ form_number self }
    {
        match self {
            Form::Old => 0,
            Form::Current => 1,
        }
    }
}
