ghost use Rattle.std.specs.Prelude.{OnOk, OnErr, is_err};
ghost use Rattle.vx_io.specs.Outside.{CountsFaults, Took, TookFront};

use crate::outside::{Failed, Sink};

/// Writes a text whole; takes no memory. After a refusal the sink has taken a front of it.
pub fn give<S: Sink>(out: &mut S, text: &[u8]) -> Result<(), Failed>
    ensures given { OnOk result (Took (S.taken out.old) (S.taken out.new) text.now) }
    ensures refused { OnErr result (TookFront (S.taken out.old) (S.taken out.new) text.now) }
    ensures cause { CountsFaults (is_err result) (S.faults out.old) (S.faults out.new) }
{
    let mut at = 0;
    while at < text.len() {
        let count = out.write(&text[at..])?;
        at += count;
    }
    Ok(())
}
