//! Laws of words that mean services, each a fact and no code.

ghost use Rattle.std.specs.Prelude.{◌≡◌, ◌∷◌, ℕ, [], List, Some};
ghost use Rattle.std.specs.Option.{option_to_list};
ghost use Rattle.named_services.specs.NamedServices.{services_after};
ghost use Rattle.named_services.specs.declared.service_word.ServiceWord.{ServiceWord};
ghost use Rattle.named_services.specs.declared.service_word.ServiceWord.TheVariants.{Number};
ghost use Rattle.followed_services.specs.ServiceNumbers.{number_after};

/// A number means itself, whatever was met. A law: it runs nothing.
pub fn a_number_means_itself()
    ensures { (id : ℕ) (packets : List (List ℕ)) → number_after (Number id) packets ≡ Some id }
{}

/// The services that one word means are the one whose number is followed, or none. A law: it runs nothing.
pub fn a_word_means_one_service()
    ensures { (word : ServiceWord) (packets : List (List ℕ)) → services_after (word ∷ []) packets ≡ option_to_list (number_after word packets) }
{}
