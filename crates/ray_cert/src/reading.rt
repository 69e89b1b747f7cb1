ghost use Rattle.std.specs.Prelude.{◌≡◌, ◌↔◌, ◌<◌, ◌^◌, Err, IfOk, IsTrue, ℕ};
ghost use Rattle.ray_cert.specs.declared.fault.CertFault.TheVariants.{BadLine};
ghost use Rattle.ray_cert.specs.Certificates.{CertValue};
ghost use Rattle.ray_cert.specs.Spelling.{IsHitSmall, IsSpelledSmall, line_of};
ghost use Rattle.ray_cert.specs.Words.{line_words, texts};

use crate::cert::Cert;
use crate::fault::CertFault;
use crate::named::Named;
use crate::words::{
    hit_size, read_hit, read_number, read_strings, split_words, word_at, words_from,
};
use crate::writing::write_cert;
use std::alloc::{AllocError as NoMemory, Global};

/// What a line spells. (Own.)
#[derive(Drop)]
pub struct ReadCert {
    /// The number of the trace command.
    pub command: u32,
    /// The number of the ray.
    pub ray: u32,
    /// The certificate of the ray.
    pub cert: Cert,
}

// What words spell, or anything.
fn read_words(alloc: Global, words: &[&str]) -> Result<ReadCert, NoMemory>
    ensures { IfOk result (λ r. (command ray : ℕ) (cert : CertValue)
        → IsSpelledSmall command ray cert → texts words.now ≡ line_words command ray cert
        → r ≡ record { command = command; ray = ray; cert = cert }) }
{
    let command = read_number(word_at(words, 1));
    let ray = read_number(word_at(words, 2));
    let named = read_hit(words_from(words, 3));
    let strings = read_strings(alloc, words_from(words, 4 + hit_size(named)))?;
    Ok(ReadCert {
        command,
        ray,
        cert: Cert::new(named, strings),
    })
}

// What a line spells, or anything.
fn read_line(alloc: Global, line: &str) -> Result<ReadCert, NoMemory>
    ensures { IfOk result (λ r. (command ray : ℕ) (cert : CertValue)
        → IsSpelledSmall command ray cert → line.now ≡ line_of command ray cert
        → r ≡ record { command = command; ray = ray; cert = cert }) }
{
    let words = split_words(alloc, line)?;
    read_words(alloc, &words)
}

// Whether a line is the spelling.
fn is_spelling(alloc: Global, line: &str, read: &ReadCert) -> Result<bool, NoMemory>
    ensures { IfOk result (λ same. IsTrue same
        ↔ (line.now ≡ line_of read.now.command read.now.ray read.now.cert)) }
{
    let text = write_cert(alloc, &read.cert, read.command, read.ray)?;
    Ok(line.as_bytes() == text.as_slice())
}

/// The command, the ray and the certificate of which a line is the spelling, byte for byte as
/// [`write_cert`](crate::write_cert) writes it: one space between two parts, no leading zeros, a
/// distance in lowest terms, and nothing before or behind. A line is the spelling of one
/// certificate at most. Whether there are such an instance, geometry and primitive isn't asked.
/// (Own.)
///
/// # Errors
///
/// `BadLine` exactly where there was memory and the line isn't the spelling of any command, ray and
/// certificate; `NoMemory` for want of memory.
pub fn read_cert(alloc: Global, line: &str) -> Result<ReadCert, CertFault>
    ensures read { IfOk result (λ r. line.now ≡ line_of r.command r.ray r.cert) }

    // Its numbers are of 32 bits.
    ensures small { IfOk result (λ r. IsSpelledSmall r.command r.ray r.cert) }

    // The line is the spelling of nothing else.
    ensures only { IfOk result (λ r. (command ray : ℕ) (cert : CertValue)
        → IsSpelledSmall command ray cert → line.now ≡ line_of command ray cert
        → r ≡ record { command = command; ray = ray; cert = cert }) }

    // There is no certificate of which it is the spelling.
    ensures bad { result ≡ Err BadLine → (command ray : ℕ) (cert : CertValue)
        → IsSpelledSmall command ray cert → ¬ (line.now ≡ line_of command ray cert) }
{
    let read = read_line(alloc, line)?;
    if is_spelling(alloc, line, &read)? {
        has_small_numbers(read.command, read.ray, read.cert.named());
        return Ok(read);
    }
    Err(CertFault::BadLine)
}

// These numbers are of 32 bits.
fn has_small_numbers(_command: u32, _ray: u32, named: Option<Named>)
    ensures command { _command < 2 ^ 32 }
    ensures ray { _ray < 2 ^ 32 }
    ensures hit { IsHitSmall named }
{
    if let Some(named) = named {
        are_small(named);
    }
}

// And so are those of a hit.
fn are_small(_named: Named)
    ensures instance { _named.instance < 2 ^ 32 }
    ensures geometry { _named.geometry < 2 ^ 32 }
    ensures primitive { _named.primitive < 2 ^ 32 }
{}
