ghost use Rattle.std.specs.Prelude.{◌≡◌, drop};
ghost use Rattle.refusal.specs.Refusals.{refused};
ghost use Rattle.reason.specs.declared.reasons.Reason.TheVariants.{Link};
ghost use Rattle.tape.specs.Entries.{zeros, sized};
ghost use Rattle.tape.specs.Judgement.{wrong, verdict, unless};

use reason::errors::LinkError;
use refusal::refusals::Refusal;

fn refuse(error: LinkError, k: usize) -> Refusal
    ensures { result ≡ refused (Link error) k }
{
    Refusal::new(error.into(), k)
}

// Whether all bytes from n on are 0.
fn is_padded(bytes: &[u8], n: usize) -> bool
    ensures { result ≡ zeros (drop n bytes.now) }
{
    bytes.iter().skip(n).all(|b| *b == 0)
}

fn is_sized(n: u8) -> bool
    ensures { result ≡ sized n }
{
    (1..=7).contains(&n)
}

// Judges the bytes of entry k.
fn judge_entry(bytes: &[u8; 18], k: usize) -> Result<(), Refusal>
    ensures { result ≡ unless tt (wrong k bytes.now) }
{
    if !bytes.starts_with(b"QA") {
        return Err(refuse(LinkError::Mark, k));
    }
    if !is_padded(&bytes[3..10], usize::from(bytes[2])) {
        return Err(refuse(LinkError::Padding, k));
    }
    if !is_sized(bytes[2]) || !is_sized(bytes[10]) {
        return Err(refuse(LinkError::Range, k));
    }
    Ok(())
}

// Judges a tape's bytes, entry by entry, and tells how many there are.
pub fn judge(bytes: &[u8]) -> Result<usize, Refusal>
    ensures { result ≡ verdict bytes.now }
{
    let (entries, rest) = bytes.as_chunks::<18>();
    if !rest.is_empty() || entries.len() > 2000 {
        return Err(refuse(LinkError::Size, 0));
    }
    for (i, entry) in entries.iter().enumerate() {
        judge_entry(entry, i + 1)?;
    }
    Ok(entries.len())
}
