//! What is printed is read again.
ghost use Rattle.usb_types.specs.Limits.{most_packet};
ghost use Rattle.std.specs.Prelude.{◌≡◌, ◌<◌, ◌≤◌, ◌^◌, ℕ, List, Some, length, decimal, IsTrue};
ghost use Rattle.usb_text.specs.Words.{words};
ghost use Rattle.usb_text.specs.Kinds.{number_of, is_address, address_of};
ghost use Rattle.usb_text.specs.Bytes.{data_of, payload_of};
ghost use Rattle.usb_text.specs.Print.{hex_pair, hex_text};
ghost use Rattle.usb_text.specs.Written.{AreBytes, AreWords, packet_text, spaced};

/// Words that are written with a space between two are read again.
pub fn words_read_back()
    ensures { (texts : List (List ℕ)) → AreWords texts → words (spaced texts) ≡ texts }
{}

/// A number that is written is read again.
pub fn number_reads_back()
    ensures { (n : ℕ) → n < 10 ^ 9 → number_of (decimal n) ≡ Some n }
{}

/// An address that is written is read again.
pub fn address_reads_back()
    ensures { (address : ℕ) → IsTrue (is_address address) → address_of (hex_pair address) ≡ Some address }
{}

/// A packet that is written is read again.
pub fn packet_reads_back()
    ensures { (bytes : List ℕ) → AreBytes bytes → length bytes ≤ most_packet → payload_of (packet_text bytes) ≡ Some bytes }
{}

/// Bytes that are written as a word of data are read again.
pub fn data_reads_back()
    ensures { (bytes : List ℕ) → AreBytes bytes → data_of (hex_text bytes) ≡ Some bytes }
{}
