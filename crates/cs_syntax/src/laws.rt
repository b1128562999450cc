//! What the tokens of all texts have in common. The functions do nothing: each is there for its
//! clauses, which hold for all values.
ghost use Rattle.std.specs.Prelude.{◌≡◌, ℕ, List, IsSome, Some};
ghost use Rattle.cs_syntax.specs.declared.token.Kind.TheVariants as kind;
ghost use Rattle.cs_syntax.specs.declared.token.Token.{Token};
ghost use Rattle.cs_syntax.specs.Escapes.{decoded};
ghost use Rattle.cs_syntax.specs.Expression.{number_tok, word_tok};
ghost use Rattle.cs_syntax.specs.Lex.{IsBadAt, IsTokenOf, IsTokens, meaning, source};
ghost use Rattle.cs_syntax.specs.Signs.{sign_of};

/// A text has one list of tokens or one bad place, and never both.
pub fn a_text_is_read_in_one_way()
    ensures one_list { (s : List ℕ) (at : ℕ) (ts us : List Token)
        → IsTokens s at ts → IsTokens s at us → ts ≡ us }
    ensures not_both { (s : List ℕ) (at bad : ℕ) (ts : List Token)
        → IsTokens s at ts → IsBadAt s at bad → ⊥ }
    ensures one_place { (s : List ℕ) (at p q : ℕ) → IsBadAt s at p → IsBadAt s at q → p ≡ q }
{}

/// A word and a number mean their own source; that of a text has a text, and that of a sign a sign.
pub fn a_token_means_its_source()
    ensures word { (s : List ℕ) (t : Token) → IsTokenOf s t → t.kind ≡ kind.Word
        → meaning t.kind (source s t) ≡ Some (word_tok (source s t)) }
    ensures number { (s : List ℕ) (t : Token) → IsTokenOf s t → t.kind ≡ kind.Number
        → meaning t.kind (source s t) ≡ Some (number_tok (source s t)) }
    ensures text { (s : List ℕ) (t : Token) → IsTokenOf s t → t.kind ≡ kind.Text
        → IsSome (decoded (source s t)) }
    ensures sign { (s : List ℕ) (t : Token) → IsTokenOf s t → t.kind ≡ kind.Sign
        → IsSome (sign_of (source s t)) }
{}
