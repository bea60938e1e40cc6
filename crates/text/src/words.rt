// The core topics, as fixed byte strings.
ghost use Rattle.std.specs.Prelude.{◌≡◌};
ghost use Rattle.text.specs.Compare.{same_bytes};
ghost use Rattle.text.specs.Words.{panic_topic, core_topic};

// 01: "The topic is compared byte for byte with `filament/core/panic`".
#[tactic(auto, unfolding(crate::specs::Words::panic_topic))]
pub fn is_panic(topic: &[u8]) -> bool
    ensures { result ≡ same_bytes topic.now panic_topic }
{
    crate::compare::same(topic, b"filament/core/panic")
}

// One of the two topics on which every module has `out`.
#[tactic(auto, unfolding(crate::specs::Words::core_topic, crate::specs::Words::log_topic))]
pub fn is_core(topic: &[u8]) -> bool
    ensures { result ≡ core_topic topic.now }
{
    crate::compare::same(topic, b"filament/core/log") | is_panic(topic)
}
