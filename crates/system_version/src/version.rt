//! The system version, which stands for a moment in 32 bits.
ghost use Rattle.std.specs.Prelude.{◌≡◌, ℕ, ◌+◌, ◌<◌, ◌≤◌, ◌↔◌, IsTrue};
ghost use Rattle.system_version.specs.Versions.{next_version, version_of, is_later, IsVersion, IsMoment};

/// The greatest number of moments of a run. It is far below 2^31, so wrapped versions still compare as moments do.
pub const MOST_MOMENTS: u32 = 26_200_001;

/// The last version. The version after it is 1, so no moment has the version 0.
pub const LAST_VERSION: u32 = u32::MAX;

/// The version of a moment: it is raised before each system's update, and marks say at which version something
/// was last taken for writing (Unity's behaviour). 0 is the version of no moment and stands for 'never'.
#[derive(Clone, Copy, Debug, PartialEq, Eq)]
pub struct SystemVersion(pub u32);

impl SystemVersion {
    /// Returns the version of the next moment: one more, and 1 after `LAST_VERSION`. It is never 0.
    pub fn next(self) -> SystemVersion
        ensures value { result.0 ≡ next_version self.0 }
        ensures some { 0 < result.0 }
        ensures moment { (first moment : ℕ) → 1 ≤ moment → self.0 ≡ version_of first moment → result.0 ≡ version_of first (moment + 1) }
    {
        if self.0 == LAST_VERSION {
            SystemVersion(1)
        } else {
            SystemVersion(self.0 + 1)
        }
    }

    /// `true` if a change of this version came after the version `required`; 0 stands for 'never', and every
    /// change comes after it.
    ///
    /// The difference is wrapped to 32 bits and read as signed (Unity's behaviour), so the answer is that of the
    /// moments, whatever the first version was, for all moments from 1 to 26,200,001.
    pub fn did_change(self, required: SystemVersion) -> bool
        ensures value { result ≡ is_later self.0 required.0 }
        ensures never { required.0 ≡ 0 → IsTrue result }

        ensures moments { (first changed seen : ℕ) → IsVersion first → IsMoment changed → IsMoment seen
            → self.0 ≡ version_of first changed → required.0 ≡ version_of first seen
            → (IsTrue result ↔ (seen < changed)) }
    {
        required.0 == 0 || self.0.wrapping_sub(required.0).cast_signed() > 0
    }
}
