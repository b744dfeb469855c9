ghost use Rattle.std.specs.Prelude.{◌≡◌, ◌↔◌, IsTrue};
ghost use Rattle.kf_channel.specs.Views.{secrets_of};

use kf_channel::Channel;

/// Whether two channels have the same secrets, by their numbers.
pub(crate) fn same_secrets(c: &Channel, d: &Channel) -> bool
    ensures { IsTrue result ↔ (secrets_of c.now ≡ secrets_of d.now) }
{
    if c.rows() != d.rows() {
        return false;
    }
    for i in 0..c.rows() {
        if c.secret(i) != d.secret(i) {
            return false;
        }
    }
    true
}
