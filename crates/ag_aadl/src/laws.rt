//! The rules on packages once more, by what stands where among the marked tokens; and that tokens are packages or break
//! a rule.
ghost use Rattle.std.specs.Prelude.{◌≡◌, ◌⊎◌, ◌++◌, ℕ, List, [], ◌∷◌, true, false, Err};
ghost use Rattle.std.specs.List.{list_all};
ghost use Rattle.ag_base.specs.declared.place.Refusal.{Refusal};
ghost use Rattle.ag_base.specs.declared.place.Rule.TheVariants.{EndName, Twice, Unsupported};
ghost use Rattle.ag_grammar.specs.Founded.{IsFounded};
ghost use Rattle.ag_lex.specs.declared.token.Token.{Token};
ghost use Rattle.ag_aadl.specs.declared.marked.Marked.{Marked};
ghost use Rattle.ag_aadl.specs.declared.packages.Package.{Package};
ghost use Rattle.ag_aadl.specs.Files.{IsFile, IsFirstWrong};
ghost use Rattle.ag_aadl.specs.Grammar.{aadl};
ghost use Rattle.ag_aadl.specs.Marked.{has_mark};
ghost use Rattle.ag_aadl.specs.Marks.{package_mark, item_mark, end_mark, end_name_mark, close_mark};
ghost use Rattle.ag_aadl.specs.Plainly.{having, is_in_name, name_at, is_declared, is_ending, has_border, IsFirstTwice, package_name, declared_name, end_name, IsFirstMisnamed, IsDelayed, IsFirstDelayed};
ghost use Rattle.ag_aadl.specs.Rules.{same_names, is_section, Obeys, run, start};
ghost use Rattle.ag_aadl.specs.Unsupported.{delayed};

/// A section stands at most once in a declaration.
pub fn sections_once()
    // Where no rule is broken, a declaration ends or another begins between two sections of one kind.
    ensures apart { (bytes : List ℕ) (before between behind : List Marked) (first second : Marked) → Obeys bytes (before ++ first ∷ (between ++ second ∷ behind)) → is_section first.mark ≡ true → first.mark ≡ second.mark → has_border between ≡ true }
    // The rule is broken first exactly at the second beginning of a section in one declaration.
    ensures refused { (bytes : List ℕ) (ms : List Marked) (r : Refusal) → run bytes start ms ≡ Err r → r.rule ≡ Twice → IsFirstTwice bytes ms r }
    ensures broken { (bytes : List ℕ) (ms : List Marked) (r : Refusal) → IsFirstTwice bytes ms r → run bytes start ms ≡ Err r }
{}

/// The name behind `end` is the declared one.
pub fn ends_named()
    // Where no rule is broken, it is so at the last name of each declaration's end.
    ensures declaration { (bytes : List ℕ) (front behind : List Marked) (last : Marked) → Obeys bytes (front ++ last ∷ behind) → last.mark ≡ end_name_mark → same_names bytes (declared_name (front ++ last ∷ [])) (end_name (front ++ last ∷ [])) ≡ true }
    // And at the `;` of each package's end.
    ensures package { (bytes : List ℕ) (front behind : List Marked) (last : Marked) → Obeys bytes (front ++ last ∷ behind) → last.mark ≡ close_mark → same_names bytes (package_name (front ++ last ∷ [])) (end_name (front ++ last ∷ [])) ≡ true }
    // Written out: between a declaration's word and the last name at its end the same names stand twice.
    ensures declaration_parts { (bytes : List ℕ) (before inner behind : List Marked) (word last : Marked) → Obeys bytes (before ++ word ∷ (inner ++ last ∷ behind)) → word.mark ≡ item_mark → last.mark ≡ end_name_mark → has_mark item_mark inner ≡ false → has_mark end_mark inner ≡ false → same_names bytes (having is_declared inner) (having is_ending inner ++ last.token ∷ []) ≡ true }
    // And the name behind `package` stands behind its `end`.
    ensures package_parts { (bytes : List ℕ) (before inner tail behind : List Marked) (word ends last : Marked) → Obeys bytes (before ++ word ∷ (inner ++ ends ∷ (tail ++ last ∷ behind))) → word.mark ≡ package_mark → ends.mark ≡ end_mark → last.mark ≡ close_mark → has_mark package_mark inner ≡ false → list_all (λ m. is_in_name m.mark) tail ≡ true → same_names bytes (name_at inner) (name_at tail) ≡ true }
    // The rule is broken first exactly at the first such token where it isn't so.
    ensures refused { (bytes : List ℕ) (ms : List Marked) (r : Refusal) → run bytes start ms ≡ Err r → r.rule ≡ EndName → IsFirstMisnamed bytes ms r }
    ensures broken { (bytes : List ℕ) (ms : List Marked) (r : Refusal) → IsFirstMisnamed bytes ms r → run bytes start ms ≡ Err r }
{}

/// The timing of a connection isn't `delayed`.
pub fn never_delayed()
    // Where no rule is broken, no token is such a value.
    ensures none { (bytes : List ℕ) (front behind : List Marked) (value : Marked) → Obeys bytes (front ++ value ∷ behind) → IsDelayed bytes front value → ⊥ }
    // The rule is broken first exactly at the first such token.
    ensures refused { (bytes : List ℕ) (ms : List Marked) (r : Refusal) → run bytes start ms ≡ Err r → r.rule ≡ Unsupported (record { number = delayed }) → IsFirstDelayed bytes ms r }
    ensures broken { (bytes : List ℕ) (ms : List Marked) (r : Refusal) → IsFirstDelayed bytes ms r → run bytes start ms ≡ Err r }
{}

/// In the grammar of packages no nonterminal begins with itself.
pub fn aadl_is_founded()
    ensures { IsFounded aadl }
{}

/// Tokens are those of some packages, or there is a rule that they break first.
pub fn one_of_the_two()
    ensures { (bytes : List ℕ) (tokens : List Token) → ((packages : List Package) × IsFile bytes tokens packages) ⊎ ((r : Refusal) × IsFirstWrong bytes tokens r) }
{
    aadl_is_founded();
    ag_grammar::one_of_the_two();
}
