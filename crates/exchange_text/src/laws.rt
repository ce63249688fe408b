//! What holds for texts and for migration, as contracts of functions. Call one to use its law in a proof.

ghost use Rattle.std.specs.Prelude.{◌≡◌, ◌≢◌, ◌⊎◌, ℕ, List, Ok, Err};
ghost use Rattle.exchange_text.specs.Exchange.{ExchangeParts, IsExchange, migrated};
ghost use Rattle.exchange_text.specs.Text.{exchange_text};
ghost use Rattle.exchange_text.specs.Reading.{exchange_said};
ghost use Rattle.exchange_text.specs.declared.fault.ExchangeFault.{ExchangeFault};

/// A text that is written reads as the same exchange, and an exchange that is read is written as the same text.
pub fn written_is_read()
    ensures written { (e : ExchangeParts) → IsExchange e → exchange_said (exchange_text e) ≡ Ok e }
    ensures read { (text : List ℕ) (e : ExchangeParts) → exchange_said text ≡ Ok e
        → (exchange_text e ≡ text) × IsExchange e }
{}

/// No two exchanges share a text.
pub fn one_exchange()
    ensures { (e f : ExchangeParts) → IsExchange e → IsExchange f
        → exchange_text e ≡ exchange_text f → e ≡ f }
{}

/// A text is that of an exchange or has one first fault, and never both. No fault of a text is `Memory`.
pub fn exchange_or_fault()
    ensures some { (text : List ℕ)
        → ((e : ExchangeParts) × IsExchange e × (exchange_text e ≡ text))
        ⊎ ((fault : ExchangeFault) × (exchange_said text ≡ Err fault)) }
    ensures not_both { (text : List ℕ) (e : ExchangeParts) (fault : ExchangeFault)
        → IsExchange e → exchange_text e ≡ text → exchange_said text ≢ Err fault }
    ensures no_memory { (text : List ℕ) → exchange_said text ≢ Err ExchangeFault.Memory }
{}

/// A migrated exchange has the same answer to reset and the same lines. Migrating twice is the same as once.
pub fn migration_keeps()
    ensures atr { (e : ExchangeParts) → (migrated e).atr ≡ e.atr }
    ensures lines { (e : ExchangeParts) → (migrated e).lines ≡ e.lines }
    ensures once { (e : ExchangeParts) → migrated (migrated e) ≡ migrated e }
{}
