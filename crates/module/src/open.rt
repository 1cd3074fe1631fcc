// A session that takes events.
ghost use Rattle.std.specs.Prelude.{◌≡◌, true};
ghost use Rattle.module.specs.Session.{takes};

use crate::session::Session;

#[derive(Clone, Copy)]
pub(crate) struct Open {
    pub(crate) session: Session,
    ghost open: { takes session ≡ true },
}
