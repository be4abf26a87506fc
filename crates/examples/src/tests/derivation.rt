//! Tests of HMAC, PBKDF2 and scrypt, and of the work that each counts. Asserts of sizes and rounds give the prover what
//! the functions called after them require, such as room in the meter.

use super::{counts, want};
use kdf_core::hmac::HmacKey;
use kdf_core::lent::{LentFault, needed_bytes, needed_words, scrypt_lent};
use kdf_core::params::Params;
use kdf_core::pbkdf2::pbkdf2;
use kdf_core::scrypt::scrypt;
use kdf_core::work::scrypt_work;
use prims_core::meter::Meter;
use std::alloc::Global;
use std::process::Abort;
use std::test::Fail;

// Keys, texts and tags of the test cases 1 to 4, 6 and 7 in RFC 4231, section 4. Case 5 truncates its tag.
const TAGS: &[(&[u8], &[u8], &str)] = &[
    (
        &[0x0b; 20],
        b"Hi There",
        "b0344c61d8db38535ca8afceaf0bf12b881dc200c9833da726e9376c2e32cff7",
    ),
    (
        b"Jefe",
        b"what do ya want for nothing?",
        "5bdcc146bf60754e6a042426089575c75a003f089d2739839dec58b964ec3843",
    ),
    (
        &[0xaa; 20],
        &[0xdd; 50],
        "773ea91e36800e46854db8ebd09181a72959098b3ef8c122d9635514ced565fe",
    ),
    (
        &[
            1, 2, 3, 4, 5, 6, 7, 8, 9, 10, 11, 12, 13, 14, 15, 16, 17, 18, 19, 20, 21, 22, 23, 24,
            25,
        ],
        &[0xcd; 50],
        "82558a389a443c0ea4cc819899f2083a85f0faa3e578f8077a2e3ff46729665b",
    ),
    (
        &[0xaa; 131],
        b"Test Using Larger Than Block-Size Key - Hash Key First",
        "60e431591ee0b67f0d8a26aacbf5b77f8e0bc6213728c5140546040f0ee37f54",
    ),
    (
        &[0xaa; 131],
        b"This is a test using a larger than block-size key and a larger than block-size data. The key needs to be hashed before being used by the HMAC algorithm.",
        "9b09ffa71b942fcb27635fbcd5b0e944bfdc63644f0713938a7f51535c3a35e2",
    ),
];

// Returns the prepared key, and asserts the work of preparing it.
fn want_key(rt: &impl Abort, key: &[u8], digests: u128, bytes: u128) -> HmacKey {
    assert!(rt; key.len() <= 131);
    let mut meter = Meter::new();
    let hmac = HmacKey::new(key, &mut meter);
    want(rt, counts(&meter), [digests, bytes, 0, 0, 0], "a key");
    hmac
}

// Asserts the tag of a message that is passed in two pieces, and the work of the tag.
fn want_tag(
    rt: &impl Abort,
    alloc: Global,
    key: &HmacKey,
    (front, back): (&[u8], &[u8]),
    wanted: &str,
) -> Result<(), Fail> {
    assert!(rt; front.len() <= 152 && back.len() <= 152);
    let mut meter = Meter::new();
    let tag = hex::encode(alloc, key.tag(front, back, &mut meter))?;
    want(rt, tag.as_str(), wanted, "a tag");
    let bytes = 160 + front.len() as u128 + back.len() as u128;
    want(rt, counts(&meter), [2, bytes, 0, 0, 0], wanted);
    Ok(())
}

// A tag does not depend on where the text is cut, and one prepared key makes several tags.
#[test]
fn tags(rt: HostRuntime) -> Result<(), Fail> {
    for (key, text, wanted) in TAGS {
        let (digests, bytes) = if key.len() > 64 {
            (1, key.len() as u128)
        } else {
            (0, 0)
        };
        let key = want_key(&rt, key, digests, bytes);
        want_tag(&rt, rt.alloc(), &key, (b"", text), wanted)?;
        want_tag(&rt, rt.alloc(), &key, text.split_at(text.len() / 2), wanted)?;
    }
    Ok(())
}

#[test]
fn a_tag_in_two_pieces(rt: HostRuntime) -> Result<(), Fail> {
    let key = HmacKey::new(b"Jefe", &mut Meter::new());
    let mut meter = Meter::new();
    let tag = key.tag(b"what do ya want ", b"for nothing?", &mut meter);
    let tag = hex::encode(rt.alloc(), tag)?;
    let wanted = "5bdcc146bf60754e6a042426089575c75a003f089d2739839dec58b964ec3843";
    want(&rt, tag.as_str(), wanted, "a tag");
    want(&rt, counts(&meter), [2, 188, 0, 0, 0], "its work");
    Ok(())
}

// A key of up to 64 bytes is used as it is; a longer one is digested first (RFC 2104, section 2).
#[test]
fn keys_of_a_block(rt: HostRuntime) {
    let _ = want_key(&rt, &[b'k'; 64], 0, 0);
    let _ = want_key(&rt, &[b'k'; 65], 1, 65);
}

struct Derivation {
    password: &'static [u8],
    salt: &'static [u8],
    rounds: u32,
    digests: u128,
    bytes: u128,
    wanted: &'static str,
}

// The first row is from RFC 7914, section 11. The other vector there has 80000 rounds, too many for a test. The next
// five rows have inputs of RFC 6070, whose outputs are for SHA-1, so the expected bytes come from Python's `hashlib`,
// as do those of the last two rows: one ends in a block that is cut, and one derives no bytes.
const DERIVATIONS: &[Derivation] = &[
    Derivation {
        password: b"passwd",
        salt: b"salt",
        rounds: 1,
        digests: 4,
        bytes: 336,
        wanted: "55ac046e56e3089fec1691c22544b605f94185216dde0465e68b9d57c20dacbc49ca9cccf179b645991664b39d77ef317c71b845b1e30bd509112041d3a19783",
    },
    Derivation {
        password: b"password",
        salt: b"salt",
        rounds: 1,
        digests: 2,
        bytes: 168,
        wanted: "120fb6cffcf8b32c43e7225256c4f837a86548c92ccc35480805987cb70be17b",
    },
    Derivation {
        password: b"password",
        salt: b"salt",
        rounds: 2,
        digests: 4,
        bytes: 360,
        wanted: "ae4d0c95af6b46d32d0adff928f06dd02a303f8ef3c251dfd6e2d85a95474c43",
    },
    Derivation {
        password: b"password",
        salt: b"salt",
        rounds: 4096,
        digests: 8192,
        bytes: 786_408,
        wanted: "c5e478d59288c841aa530db6845c4c8d962893a0",
    },
    Derivation {
        password: b"passwordPASSWORDpassword",
        salt: b"saltSALTsaltSALTsaltSALTsaltSALTsalt",
        rounds: 4096,
        digests: 8192,
        bytes: 786_440,
        wanted: "348c89dbcbd32b2f32d814b8116e84cf2b17347ebc1800181c",
    },
    Derivation {
        password: b"pass\0word",
        salt: b"sa\0lt",
        rounds: 4096,
        digests: 8192,
        bytes: 786_409,
        wanted: "89b69d0516f829893c696226650a8687",
    },
    Derivation {
        password: b"password",
        salt: b"salt",
        rounds: 1,
        digests: 4,
        bytes: 336,
        wanted: "120fb6cffcf8b32c43e7225256c4f837a86548c92ccc35480805987cb70be17b4d",
    },
    Derivation {
        password: b"password",
        salt: b"salt",
        rounds: 1,
        digests: 0,
        bytes: 0,
        wanted: "",
    },
];

// Asserts the bytes that PBKDF2 derives for a row, and their work.
fn want_derived(rt: &impl Abort, alloc: Global, row: &Derivation) -> Result<(), Fail> {
    let count = row.wanted.len() / 2;
    let rounds = row.rounds;
    assert!(rt; row.password.len() <= 64 && row.salt.len() <= 64);
    assert!(rt; 1 <= rounds && count <= 64);
    let mut out = vec![in alloc; 0; count]?;
    let mut meter = Meter::new();
    let key = HmacKey::new(row.password, &mut meter);
    pbkdf2(&key, row.salt, rounds, &mut out, &mut meter);
    let told = hex::encode(alloc, out.as_slice())?;
    want(rt, told.as_str(), row.wanted, "bytes from a password");
    let work = [row.digests, row.bytes, 0, 0, 0];
    want(rt, counts(&meter), work, row.wanted);
    Ok(())
}

#[test]
fn bytes_from_a_password(rt: HostRuntime) -> Result<(), Fail> {
    for row in DERIVATIONS {
        want_derived(&rt, rt.alloc(), row)?;
    }
    Ok(())
}

// Parameters at the limits of their ranges and at the ceiling, and just beyond them.
#[test]
fn parameters(rt: HostRuntime) {
    for &(log_n, r, p, wanted) in &[
        (4, 1, 1, Ok(16)),
        (15, 1, 256, Ok(32_768)),
        (0, 1, 1, Err("scrypt range")),
        (4, 0, 1, Err("scrypt range")),
        (4, 1, 0, Err("scrypt range")),
        (16, 1, 1, Err("scrypt range")),
        (16, 1, 8_388_609, Err("scrypt range")),
        (15, 1, 257, Err("above ceiling")),
        (14, 1_073_741_823, 1_073_741_823, Err("above ceiling")),
        (255, 4_294_967_295, 4_294_967_295, Err("above ceiling")),
    ] {
        match Params::new(log_n, r, p) {
            Ok(params) => {
                let told = (params.log_n(), params.r(), params.p());
                want(&rt, told, (log_n, r, p), "parameters");
                want(&rt, Ok(params.row_count()), wanted, "N");
            }
            Err(fault) => want(&rt, Err(fault.text()), wanted, "an error"),
        }
    }
}

struct Row {
    password: &'static [u8],
    salt: &'static [u8],
    log_n: u8,
    r: u32,
    p: u32,
    // The digests, bytes digested, mixings, and bytes of table and scratch memory.
    work: [u64; 5],
    wanted: &'static str,
}

// The first three are from RFC 7914, section 12, whose fourth vector needs a table of 1 GiB. The fourth is the first
// with half of its bytes. The others come from Python's `hashlib`: passwords of 64 and 65 bytes, as HMAC digests a key
// above 64 bytes; N of 2; a result that ends in a part of a block; no bytes; many parts; a part of many blocks.
const ROWS: &[Row] = &[
    Row {
        password: b"",
        salt: b"",
        log_n: 4,
        r: 1,
        p: 1,
        work: [12, 1240, 32, 2048, 384],
        wanted: "77d6576238657b203b19ca42c18a0497f16b4844e3074ae8dfdffa3fede21442fcd0069ded0948f8326a753a0fc81f17e8d3e0fb2e0d3628cf35e20c38d18906",
    },
    Row {
        password: b"password",
        salt: b"NaCl",
        log_n: 10,
        r: 8,
        p: 16,
        work: [1028, 119_112, 32_768, 1_048_576, 18_432],
        wanted: "fdbabe1c9d3472007856e7190d01e9fe7c6ad7cbc8237830e77376634b3731622eaf30d92e22a3886ff109279d9830dac727afb94a83ee6d8360cbdfa2cc0640",
    },
    Row {
        password: b"pleaseletmein",
        salt: b"SodiumChloride",
        log_n: 14,
        r: 8,
        p: 1,
        work: [68, 8072, 32_768, 16_777_216, 3072],
        wanted: "7023bdcb3afd7348461c06cd81fd38ebfda8fbba904f8e3ea9b543f6545da1f2d5432955613f0fcf62d49705242a9af9e61e85dc0d651e40dfcf017b45575887",
    },
    Row {
        password: b"",
        salt: b"",
        log_n: 4,
        r: 1,
        p: 1,
        work: [10, 948, 32, 2048, 384],
        wanted: "77d6576238657b203b19ca42c18a0497f16b4844e3074ae8dfdffa3fede21442",
    },
    Row {
        password: &[b'p'; 64],
        salt: b"salt",
        log_n: 3,
        r: 2,
        p: 3,
        work: [52, 5896, 48, 2048, 1280],
        wanted: "704a87a65331f619cda413cdfe4e16aafb2d7b82acbc3139d7bc5d70a10cbe389e",
    },
    Row {
        password: &[b'p'; 65],
        salt: b"salt",
        log_n: 3,
        r: 2,
        p: 3,
        work: [53, 5961, 48, 2048, 1280],
        wanted: "b3f70ff505d25405507d6677e32b3e7a32a56debad93e352a3019912a441a81016",
    },
    Row {
        password: b"pw",
        salt: &[b's'; 70],
        log_n: 1,
        r: 1,
        p: 2,
        work: [18, 2292, 8, 256, 512],
        wanted: "b7",
    },
    Row {
        password: b"pw",
        salt: b"",
        log_n: 5,
        r: 3,
        p: 1,
        work: [32, 4160, 64, 12_288, 1152],
        wanted: "e9f1e5a52abc737ba95fb43b723123c8a67ad67998afce06cb028ed11a780f7a7c233660314e378bba4bcb5b117d638a456d8174e1d1cb4e79550ba8d28c9243ea067021399f4b95f471617881a3cec7067d0d953d1fc3a3b9f77f0f3c2fe65117086767",
    },
    Row {
        password: b"pw",
        salt: b"salt",
        log_n: 4,
        r: 1,
        p: 1,
        work: [8, 672, 32, 2048, 384],
        wanted: "",
    },
    Row {
        password: b"pw",
        salt: b"salt",
        log_n: 1,
        r: 1,
        p: 8193,
        work: [65_546, 6_554_564, 32_772, 256, 1_048_960],
        wanted: "678d9a80ce0193d6d1da2d0e769a072422e233dfbcc04a772561dd7b23ca24dd",
    },
    Row {
        password: b"pw",
        salt: b"salt",
        log_n: 1,
        r: 4097,
        p: 1,
        work: [32_778, 3_277_764, 4, 1_048_832, 1_573_248],
        wanted: "6c67225ff3ca9b0cd5bdd4b9f8e2aa667d9ebfc755fcfe6bd12a8e29587d438b",
    },
];

// Asserts the bytes that scrypt derives for a row, and its work, both as computed beforehand and as counted.
fn want_bytes(rt: &impl Abort, alloc: Global, row: &Row) -> Result<(), Fail> {
    let (log_n, r, p, count) = (row.log_n, row.r, row.p, row.wanted.len() / 2);
    assert!(rt; count <= 128 && row.password.len() <= 65 && row.salt.len() <= 70);
    let params = Params::new(log_n, r, p)?;
    let mut out = vec![in alloc; 7; count]?;
    let mut meter = Meter::new();
    scrypt(alloc, row.password, row.salt, &params, &mut out, &mut meter)?;
    let work = scrypt_work(
        &params,
        row.password.len() as u64,
        row.salt.len() as u64,
        count as u64,
    );
    let told = hex::encode(alloc, out.as_slice())?;
    want(rt, told.as_str(), row.wanted, "bytes by scrypt");
    let known = [
        work.digests,
        work.bytes,
        work.mixes,
        work.table,
        work.scratch,
    ];
    want(rt, known, row.work, row.wanted);
    let work = row.work.map(|count| u128::from(count));
    want(rt, counts(&meter), work, row.wanted);
    Ok(())
}

#[test]
fn bytes_by_scrypt(rt: HostRuntime) -> Result<(), Fail> {
    for row in ROWS {
        want_bytes(&rt, rt.alloc(), row)?;
    }
    Ok(())
}

// Asserts what scrypt returns for a row in lent memory, what its meter counts, and which bytes are in `out` afterwards.
fn want_lent(
    rt: &impl Abort,
    alloc: Global,
    row: &Row,
    words: &mut [u32],
    bytes: &mut [u8],
    answer: Result<(), LentFault>,
) -> Result<(), Fail> {
    let (log_n, r, p, count) = (row.log_n, row.r, row.p, row.wanted.len() / 2);
    assert!(rt; count <= 128 && row.password.len() <= 65 && row.salt.len() <= 70);
    let params = Params::new(log_n, r, p)?;
    let mut out = vec![in alloc; 7; count]?;
    let unchanged = hex::encode(alloc, out.as_slice())?;
    let mut meter = Meter::new();
    let told = scrypt_lent(
        words,
        bytes,
        row.password,
        row.salt,
        &params,
        &mut out,
        &mut meter,
    );
    want(rt, told, answer, row.wanted);
    let told = hex::encode(alloc, out.as_slice())?;
    let (wanted, work) = match answer {
        Ok(()) => (row.wanted, row.work.map(|count| u128::from(count))),
        Err(_) => (unchanged.as_str(), [0; 5]),
    };
    want(rt, told.as_str(), wanted, "bytes by scrypt");
    want(rt, counts(&meter), work, row.wanted);
    Ok(())
}

// Runs scrypt in exactly as much lent memory as it needs, filled with ones, not zeros, and in a word or a byte less.
#[test]
fn bytes_by_scrypt_in_lent_memory(rt: HostRuntime) -> Result<(), Fail> {
    let alloc = rt.alloc();
    for row in ROWS {
        let params = Params::new(row.log_n, row.r, row.p)?;
        let mut words = vec![in alloc; 0xffff_ffff; needed_words(&params)]?;
        let mut bytes = vec![in alloc; 0xff; needed_bytes(&params)]?;
        want_lent(&rt, alloc, row, &mut words, &mut bytes, Ok(()))?;
        let _word = words.pop();
        let few = Err(LentFault::Words);
        want_lent(&rt, alloc, row, &mut words, &mut bytes, few)?;
        words.push(0)?;
        let _byte = bytes.pop();
        let few = Err(LentFault::Bytes);
        want_lent(&rt, alloc, row, &mut words, &mut bytes, few)?;
    }
    Ok(())
}
