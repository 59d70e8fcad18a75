// Zeros, for planes and marks. That the length is told too lets a part of them be lent with no proof.
ghost use Rattle.std.specs.Prelude.{◌≡◌, length};
ghost use Rattle.recordings.specs.Bytes.{zeros};

#[tactic(auto, unfolding(crate::specs::Bytes::zeros))]
pub fn zeros<const N: usize>() -> [u8; N]
    ensures len { N ≡ length result }
    ensures value { result ≡ zeros N }
{
    [0; N]
}
