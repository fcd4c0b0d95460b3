ghost use Rattle.std.specs.Prelude.{◌≡◌, IfSome, IfNone};
ghost use Rattle.gate_replay.specs.SentPacket.{sent, FitsForm};

use crate::script_line::PacketForm;
use gate_packet::{Packet, fits_short};
use std::marker::Model;

/// A packet of a script, and the form in which it is sent, which has room for it.
#[derive(Drop)]
pub struct SentPacket {
    form: PacketForm,
    packet: Packet,
}

impl Model for SentPacket {
    ghost use Rattle.gate_replay.specs.SentPacket.{SentPacket, sent, FitsForm};

    ghost Value = { SentPacket };

    ghost view = { λ s. sent s.form s.packet };

    ghost invariant = { λ s. FitsForm s.form s.packet };

    ghost inverse = { λ s. record { form = s.form; packet = s.packet } };
}

impl SentPacket {
    /// The packet in this form, if it has room for it.
    pub(crate) fn new(form: PacketForm, packet: Packet) -> Option<SentPacket>
        ensures sent { IfSome result (λ s. s ≡ sent form packet) }
        ensures fits { IfSome result (λ _. FitsForm form packet) }
        ensures none { IfNone result (¬ FitsForm form packet) }
    {
        match form {
            PacketForm::Short => {
                if !fits_short(&packet) {
                    return None;
                }
            }
            PacketForm::Long => {}
        }
        Some(SentPacket { form, packet })
    }

    /// The form in which it is sent.
    pub fn form(&self) -> PacketForm
        ensures { result ≡ self.now.form }
    {
        self.form
    }

    /// The packet.
    pub fn packet(&self) -> &Packet
        ensures packet { result.now ≡ self.now.packet }
        ensures fits { FitsForm self.now.form self.now.packet }
    {
        &self.packet
    }
}
