// The three calls that pass messages of the callers' own choosing under pads, by their exported names.
ghost use Rattle.std.specs.Prelude.{◌≡◌, [], ◌∷◌};
ghost use Rattle.page.specs.Document01 as document;
ghost use Rattle.page_two.specs.Document02 as document02;

use answer::OneLength;

// The noise end's bits to send: choice exclusive-or wanted bit of each output.
#[unsafe(no_mangle)]
pub extern "C" fn expander_correction_bits(
    count: usize,
    choices: &[u8],
    wanted: &[u8],
    bits_out: &mut [u8],
) -> OneLength
    ensures { document.returned result.number (result.written ∷ [])
        (choices.now ∷ wanted.now ∷ []) (bits_out.new ∷ [])
        ≡ document02.correction_bits count choices.now wanted.now bits_out.old }
{
    pads_messages::correction_bits(count, choices, wanted, bits_out)
}

// The scalar end's answers: both messages of each output, masked.
#[unsafe(no_mangle)]
pub extern "C" fn expander_mask_messages(
    count: usize,
    bits: &[u8],
    pads: &[u8],
    messages: &[u8],
    answers_out: &mut [u8],
) -> OneLength
    ensures { document.returned result.number (result.written ∷ [])
        (bits.now ∷ pads.now ∷ messages.now ∷ []) (answers_out.new ∷ [])
        ≡ document02.mask_messages count bits.now pads.now messages.now answers_out.old }
{
    pads_messages::mask_messages(count, bits, pads, messages, answers_out)
}

// The noise end's messages: the wanted one of each output, unmasked.
#[unsafe(no_mangle)]
pub extern "C" fn expander_unmask_messages(
    count: usize,
    wanted: &[u8],
    pads: &[u8],
    answers: &[u8],
    messages_out: &mut [u8],
) -> OneLength
    ensures { document.returned result.number (result.written ∷ [])
        (wanted.now ∷ pads.now ∷ answers.now ∷ []) (messages_out.new ∷ [])
        ≡ document02.unmask_messages count wanted.now pads.now answers.now messages_out.old }
{
    pads_messages::unmask_messages(count, wanted, pads, answers, messages_out)
}
