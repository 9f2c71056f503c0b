// The track encryption box `tenc`: what it holds; definitions and theorems (document 01, "The track box").
#![tactic(auto)]

ghost use Rattle.std.specs.Prelude.{◌≡◌};
ghost use Rattle.track_spec.specs.Track as spec;

// The KID of a track: the name of its key.
#[derive(Clone, Copy)]
pub struct Kid(pub [u8; Kid::SIZE]);

// A start vector of 16 bytes; one of 8 is filled out with zeros.
#[derive(Clone, Copy)]
pub struct StartVector(pub [u8; StartVector::SIZE]);

impl Kid {
    pub const SIZE: usize = 16;
}

impl StartVector {
    pub const SIZE: usize = 16;
}

// What a track's box holds, the scheme's code with it.
// The numbers are a box's bytes, whatever they are; `check` refuses those that mean nothing.
#[derive(Clone, Copy)]
pub struct Parameters {
    pub code: [u8; 4],
    pub version: u8,
    pub crypt: u8,
    pub skip: u8,
    pub protected: u8,
    pub iv_size: u8,
    pub kid: Kid,
    pub constant_iv: StartVector,
}

impl Parameters {
    // The lengths of a box without and with a constant IV.
    pub const BOX: usize = 32;

    pub const BOX_WITH_CONSTANT_IV: usize = 49;

    // The constant IV size that a box names.
    pub const CONSTANT_IV_SIZE: u8 = 16;

    // The largest crypt count and the largest skip count.
    pub const MOST_BLOCKS: u8 = 15;

    // Those of an empty unprotected cenc track in version 0, which stand where nothing was read.
    pub fn unprotected() -> Parameters
        ensures { result ≡ spec.unprotected }
    {
        Parameters {
            code: *b"cenc",
            version: 0,
            crypt: 0,
            skip: 0,
            protected: 0,
            iv_size: 0,
            kid: Kid([0; Kid::SIZE]),
            constant_iv: StartVector([0; StartVector::SIZE]),
        }
    }
}
