// An image that is not refused, and its sections.
ghost use Rattle.std.specs.Prelude.{◌≡◌, ◌<◌, IfOk, true};
ghost use Rattle.answers.specs.Outcomes.{outcome_number};
ghost use Rattle.image.specs.Limits.{section_count};
ghost use Rattle.image.specs.Image.{part, rule_records_good, check_of};

use answers::Refusal;

// The section of rules and the section of the mixtures that its records name, each record being good among these.
#[derive(Clone, Copy)]
pub struct RuleSections<'a> {
    pub records: &'a [u8],
    pub mixtures: &'a [u8],
    pub ghost good: { rule_records_good records.now mixtures.now ≡ true },
}

// The bytes of an image that is not refused.
#[derive(Clone, Copy)]
pub struct Accepted<'a> {
    pub bytes: &'a [u8],
    pub ghost accepted: { check_of bytes.now ≡ 0 },
}

impl<'a> Accepted<'a> {
    // Section k.
    pub fn section(self, k: usize) -> &'a [u8]
        requires { k < section_count }
        ensures { result.now ≡ part self.entry.bytes.now k }
    {
        crate::section(self.bytes, k)
    }

    pub fn containers(self) -> &'a [u8]
        ensures { result.now ≡ part self.entry.bytes.now 0 }
    {
        self.section(0)
    }

    pub fn users(self) -> &'a [u8]
        ensures { result.now ≡ part self.entry.bytes.now 1 }
    {
        self.section(1)
    }

    // The rules with their mixtures.
    pub fn rules(self) -> RuleSections<'a>
        ensures { (result.records.now ≡ part self.entry.bytes.now 2) × (result.mixtures.now ≡ part self.entry.bytes.now 3) }
    {
        RuleSections {
            records: self.section(2),
            mixtures: self.section(3),
        }
    }
}

// The image, unless it is refused.
pub fn accept(image: &[u8]) -> Result<Accepted<'_>, Refusal>
    ensures { (outcome_number result ≡ check_of image.now) × IfOk result (λ a. a.bytes.now ≡ image.now) }
{
    crate::check(image)?;
    Ok(Accepted { bytes: image })
}
