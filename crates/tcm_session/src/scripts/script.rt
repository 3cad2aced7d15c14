//! A script whose lines are being answered.

use script_session::Session;

/// A script whose lines are being answered: its session, what is kept of the line that has begun, and the file that new
/// entries are added to, if there is one. The value must be consumed, by `close`.
pub struct Script<'a> {
    pub session: Session,
    pub begun: Vec<u8>,
    pub log: Option<&'a str>,
}

impl Script<'_> {
    /// Consumes the session.
    pub fn close(self) {
        let Script {
            session,
            begun: _,
            log: _,
        } = self;
        session.close();
    }
}
