ghost use Rattle.std.specs.Prelude.{◌≡◌, ◌∷◌, [], ◌++◌, false, IfOk, OnOk};
ghost use Rattle.gate_grammar.specs.Spelling.{holds};
ghost use Rattle.gate_model.specs.Escaping.{escaped};
ghost use Rattle.desk_sending.specs.Audit.{audit_text};

use gate_model::{push_escaped, push_number};
use std::alloc::{AllocError, Global};

/// A command that was sent for a form, and what came of it.
#[derive(Clone, Copy)]
pub(crate) struct Sent<'a> {
    /// When it was sent, in seconds since 1970.
    pub moment: u32,
    /// The user, as the proxy names them.
    pub user: &'a [u8],
    pub gateway: &'a str,
    /// The command's line, without its LF.
    pub line: &'a [u8],
    /// What the gateway answered, or why there is no answer.
    pub answer: &'a [u8],
}

fn push_field(out: &mut Vec<u8>, text: &[u8]) -> Result<(), AllocError>
    ensures { OnOk result (out.new.items ≡ out.old.items ++ 9 ∷ escaped text.now) }
{
    out.push(b'\t')?;
    push_escaped(out, text)
}

/// The line of the audit log: five fields with tabs between them, and an LF. The only error is out of
/// memory.
pub(crate) fn audit_line(alloc: Global, sent: Sent<'_>) -> Result<Vec<u8>, AllocError>
    ensures line { IfOk result (λ line. line.items ≡ audit_text sent.entry.moment
        sent.entry.user.now sent.entry.gateway.now sent.entry.line.now sent.entry.answer.now
        ++ 10 ∷ []) }
    ensures one { IfOk result (λ _. holds 10 (audit_text sent.entry.moment
        sent.entry.user.now sent.entry.gateway.now sent.entry.line.now sent.entry.answer.now)
        ≡ false) }
{
    let mut out = Vec::new(alloc);
    push_number(&mut out, u64::from(sent.moment))?;
    push_field(&mut out, sent.user)?;
    push_field(&mut out, sent.gateway.as_bytes())?;
    push_field(&mut out, sent.line)?;
    push_field(&mut out, sent.answer)?;
    out.push(b'\n')?;
    Ok(out)
}
