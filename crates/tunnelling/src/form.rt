// What an acknowledgement is on the wire: the crate's form, which is 01's, or KNX's own.
ghost use Rattle.std.specs.Prelude.{◌≡◌};
ghost use Rattle.tunnelling.specs.AckForm.{form_by};

#[derive(Clone, Copy)]
pub enum Form {
    Crate,
    Standard,
}

impl Form {
    // Where the status stands in the body, whose last byte it is: behind the connection header, or as its fourth byte.
    pub(crate) fn status_at(self) -> usize
        ensures { result ≡ (form_by self).status_at }
    {
        match self {
            Form::Crate => 4,
            Form::Standard => 3,
        }
    }
}
