// What a caller hands in for a sample, and a whole sample locked and opened: definitions and theorems (document 01, "Which bytes are
// ciphered, and how").
#![tactic(auto)]

use aes::Key;
use subsample_spec::SubsampleMap;
use track_spec::{Parameters, StartVector};

// What a caller hands in for a sample: the scheme's code, the track box, the auxiliary data and the key record.
#[derive(Clone, Copy)]
pub struct Inputs<'a> {
    pub code: &'a [u8],
    pub track_box: &'a [u8],
    pub auxiliary: &'a [u8],
    pub key_record: &'a [u8],
}

impl Inputs<'_> {
    // The bytes of a key record: the KID, then the key.
    pub const KEY_RECORD_SIZE: usize = 32;
}

// What accepted inputs say.
#[derive(Clone, Copy)]
pub struct InputsRead {
    pub parameters: Parameters,
    pub key: Key,
    pub map: SubsampleMap,
    pub iv: StartVector,
}
