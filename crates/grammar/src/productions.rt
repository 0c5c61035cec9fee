//! The productions of the grammar, as docs/language.md writes them.
ghost use Rattle.std.specs.Prelude.{◌≡◌, List, [], ◌∷◌, ◌++◌, Option, Some, None, true, false};
ghost use Rattle.std.specs.List.{flat_map};
ghost use Rattle.scanner.specs.declared.token.Keyword.TheVariants as K;
ghost use Rattle.scanner.specs.declared.token.Sign.TheVariants as S;
ghost use Rattle.scanner.specs.declared.token.Place.{Place};
ghost use Rattle.syntax.specs.declared.leaf.Truth.{Truth};
ghost use Rattle.syntax.specs.declared.leaf.Number.{Number};
ghost use Rattle.syntax.specs.declared.expression.Comparator.{Comparator};
ghost use Rattle.syntax.specs.declared.expression.Comparator.TheVariants as C;
ghost use Rattle.syntax.specs.declared.expression.SumOperator.{SumOperator};
ghost use Rattle.syntax.specs.declared.expression.SumOperator.TheVariants.{Plus as PlusSign, Minus as MinusSign};
ghost use Rattle.syntax.specs.declared.expression.ProductOperator.{ProductOperator};
ghost use Rattle.syntax.specs.declared.expression.ProductOperator.TheVariants as P;
ghost use Rattle.syntax.specs.declared.declaration.LocalType.TheVariants as L;
ghost use Rattle.syntax.specs.declared.declaration.MemberType.TheVariants as M;
ghost use Rattle.syntax.specs.declared.declaration.ResultType.{ResultType};
ghost use Rattle.syntax.specs.declared.declaration.ResultType.TheVariants as R;
ghost use Rattle.syntax.specs.declared.declaration.Access.TheVariants as A;
ghost use Rattle.syntax.specs.Lexeme.{NameTree, Word, WordAt, Mark, MarkAt, Named, Numbered, Finish};
ghost use Rattle.syntax.specs.Tree.{ExpressionTree, AnyOf, ConjunctionTrees, NoConjunctions, OrElse, ConjunctionTree};
ghost use Rattle.syntax.specs.Tree.{AllOf, RelationTrees, NoRelations, AndAlso, RelationTree, Relates};
ghost use Rattle.syntax.specs.Tree.{ComparisonTree, NoComparison, Compares, SumTree, Total, SummandTrees, NoSummands};
ghost use Rattle.syntax.specs.Tree.{Adds, TermTree, Product, MultiplierTrees, NoMultipliers, Scales, FactorTree};
ghost use Rattle.syntax.specs.Tree.{Constant, Truthful, Reads, Group, Minus, Not, IndexTree, NoIndex, At, CalleeTree};
ghost use Rattle.syntax.specs.Tree.{VariableTree, StatementTree, Assign, If, While, Call, Fork, Join, Return, Wait};
ghost use Rattle.syntax.specs.Tree.{Notify, Broadcast, Print, Abort, StatementTrees, NoStatements, Then, PartTree};
ghost use Rattle.syntax.specs.Tree.{NoPart, Part, LocalTree, ParameterTree, MemberTree, BodyTree, ProcedureTree};
ghost use Rattle.syntax.specs.Tree.{MonitorProcedureTree, RecoverTree, MonitorTree, UnitTree};
ghost use Rattle.syntax.specs.Spelling.{bool_lexeme, comparator_text, sum_sign, product_sign, local_type_text};
ghost use Rattle.syntax.specs.Spelling.{result_type_text, access_text, unit_text};
ghost use Rattle.grammar.specs.Productions.{expression, more_conjunctions, conjunction, more_relations, relation};
ghost use Rattle.grammar.specs.Productions.{comparison, sum_of_terms, more_terms, term, more_factors, factor, index};
ghost use Rattle.grammar.specs.Productions.{arguments, dot_and_name, callee, into, statement, statements, else_part};
ghost use Rattle.grammar.specs.Productions.{aborted_part, member_type, local, member, parameter, parameters};
ghost use Rattle.grammar.specs.Productions.{result_part, body, procedure, access_procedure, recover, monitor};

/// What each tree is spelled as, case by case: the grammar of docs/language.md. `{ }` of it is
/// `flat_map`, or the two cases of a list, and `[ ]` the two cases of an option.
pub fn productions()
    ensures unit { (u : UnitTree) → unit_text u ≡ Word K.Program ∷ Named u.name ∷ Mark S.Semicolon
        ∷ flat_map monitor u.monitors ++ flat_map procedure u.procedures
        ++ WordAt K.Main u.place ∷ body u.body
        ++ Mark S.Dot ∷ Finish ∷ [] }
    ensures monitor { (m : MonitorTree) → monitor m
        ≡ WordAt K.Monitor m.place ∷ Named m.name ∷ Mark S.Semicolon
        ∷ flat_map member m.members ++ flat_map access_procedure m.procedures ++ recover m.recover
        ++ Word K.End
        ∷ Mark S.Semicolon ∷ [] }
    ensures member { (m : MemberTree) → member m
        ≡ WordAt K.Var m.place ∷ Named m.name ∷ Mark S.Colon
        ∷ member_type m.kind ++ Mark S.Semicolon ∷ [] }
    ensures access_procedure { (p : MonitorProcedureTree)
        → access_procedure p ≡ access_text p.access
        ∷ procedure p.procedure }
    ensures entry { access_text A.Entry ≡ Word K.Entry }
    ensures internal { access_text A.Internal ≡ Word K.Internal }
    ensures procedure { (p : ProcedureTree) → procedure p
        ≡ WordAt K.Procedure p.place ∷ Named p.name
        ∷ MarkAt S.OpenParen p.open_place ∷ parameters p.parameters
        ++ Mark S.CloseParen ∷ result_part p.returns
        ++ Mark S.Semicolon ∷ body p.body ++ Mark S.Semicolon ∷ [] }
    ensures no_parameters { parameters [] ≡ [] }
    ensures some_parameters { (p : ParameterTree) (ps : List ParameterTree)
        → parameters (p ∷ ps) ≡ parameter p ++ flat_map (λ q. Mark S.Comma ∷ parameter q) ps }
    ensures one_parameter { (p : ParameterTree) → parameter p
        ≡ Named p.name ∷ Mark S.Colon ∷ local_type_text p.kind
        ∷ [] }
    ensures no_result { result_part None ≡ [] }
    ensures some_result { (t : ResultType) → result_part (Some t)
        ≡ Mark S.Colon ∷ result_type_text t ∷ [] }
    ensures no_recover { recover None ≡ [] }
    ensures some_recover { (r : RecoverTree) → recover (Some r)
        ≡ WordAt K.Recover r.place ∷ body r.body
        ++ Mark S.Semicolon ∷ [] }
    ensures body { (b : BodyTree) → body b
        ≡ flat_map local b.locals ++ statements b.statements ++ Word K.End ∷ [] }
    ensures local { (l : LocalTree) → local l ≡ WordAt K.Var l.place ∷ Named l.name ∷ Mark S.Colon
        ∷ local_type_text l.kind ∷ Mark S.Semicolon ∷ [] }
    ensures integer_member { member_type M.Integer ≡ Word K.Integer ∷ [] }
    ensures boolean_member { member_type M.Boolean ≡ Word K.Boolean ∷ [] }
    ensures process_member { member_type M.Process ≡ Word K.Process ∷ [] }
    ensures condition_member { member_type M.Condition ≡ Word K.Condition ∷ [] }
    ensures array_member { (n : Number) → member_type (M.Array n)
        ≡ Word K.Array ∷ Numbered n ∷ Word K.Of
        ∷ Word K.Integer ∷ [] }
    ensures integer_local { local_type_text L.Integer ≡ Word K.Integer }
    ensures boolean_local { local_type_text L.Boolean ≡ Word K.Boolean }
    ensures process_local { local_type_text L.Process ≡ Word K.Process }
    ensures integer_result { result_type_text R.Integer ≡ Word K.Integer }
    ensures boolean_result { result_type_text R.Boolean ≡ Word K.Boolean }
    ensures no_statements { statements NoStatements ≡ [] }
    ensures some_statements { (s : StatementTree) (ss : StatementTrees)
        → statements (Then s ss) ≡ statement s ++ statements ss }
    ensures assign_statement { (v : VariableTree) (e : ExpressionTree)
        → statement (Assign v e)
        ≡ Named v.name ∷ index v.index ++ Mark S.Assign ∷ expression e ++ Mark S.Semicolon
        ∷ [] }
    ensures if_statement { (place : Place) (e : ExpressionTree) (ss : StatementTrees)
        (part : PartTree)
        → statement (If place e ss part)
        ≡ WordAt K.If place ∷ expression e ++ Word K.Then ∷ statements ss
        ++ else_part part ++ Word K.Endif ∷ Mark S.Semicolon ∷ [] }
    ensures no_else { else_part NoPart ≡ [] }
    ensures some_else { (ss : StatementTrees) → else_part (Part ss) ≡ Word K.Else ∷ statements ss }
    ensures while_statement { (place : Place) (e : ExpressionTree) (ss : StatementTrees)
        → statement (While place e ss)
        ≡ WordAt K.While place ∷ expression e ++ Word K.Do ∷ statements ss
        ++ Word K.Endloop ∷ Mark S.Semicolon ∷ [] }
    ensures call_statement { (place : Place) (c : CalleeTree) (name : Option NameTree)
        → statement (Call place c name)
        ≡ WordAt K.Call place ∷ callee c ++ into name ++ Mark S.Semicolon ∷ [] }
    ensures no_into { into None ≡ [] }
    ensures some_into { (name : NameTree) → into (Some name) ≡ Word K.Into ∷ Named name ∷ [] }
    ensures fork_statement { (place : Place) (c : CalleeTree) (name : NameTree)
        → statement (Fork place c name) ≡ WordAt K.Fork place ∷ callee c ++ Word K.Into ∷ Named name
        ∷ Mark S.Semicolon ∷ [] }
    ensures join_statement { (place : Place) (e : ExpressionTree) (name : Option NameTree)
        (part : PartTree)
        → statement (Join place e name part)
        ≡ WordAt K.Join place ∷ expression e ++ into name ++ aborted_part part
        ++ Mark S.Semicolon ∷ [] }
    ensures no_aborted { aborted_part NoPart ≡ [] }
    ensures some_aborted { (ss : StatementTrees)
        → aborted_part (Part ss) ≡ Word K.Aborted ∷ statements ss
        ++ Word K.End ∷ [] }
    ensures return_nothing { (place : Place) → statement (Return place None) ≡ WordAt K.Return place
        ∷ Mark S.Semicolon ∷ [] }
    ensures return_value { (place : Place) (e : ExpressionTree) → statement (Return place (Some e))
        ≡ WordAt K.Return place ∷ expression e ++ Mark S.Semicolon ∷ [] }
    ensures wait_statement { (place : Place) (name : NameTree)
        → statement (Wait place name) ≡ WordAt K.Wait place
        ∷ Named name ∷ Mark S.Semicolon ∷ [] }
    ensures notify_statement { (place : Place) (name : NameTree) → statement (Notify place name)
        ≡ WordAt K.Notify place ∷ Named name ∷ Mark S.Semicolon ∷ [] }
    ensures broadcast_statement { (place : Place) (name : NameTree)
        → statement (Broadcast place name)
        ≡ WordAt K.Broadcast place ∷ Named name ∷ Mark S.Semicolon ∷ [] }
    ensures print_statement { (place : Place) (e : ExpressionTree)
        → statement (Print place e) ≡ WordAt K.Print place
        ∷ expression e ++ Mark S.Semicolon ∷ [] }
    ensures abort_statement { (place : Place) → statement (Abort place)
        ≡ WordAt K.Abort place ∷ Mark S.Semicolon
        ∷ [] }
    ensures callee { (c : CalleeTree)
        → callee c ≡ Named c.name ∷ dot_and_name c.dotted ++ MarkAt S.OpenParen c.open_place
        ∷ arguments c.arguments ++ Mark S.CloseParen ∷ [] }
    ensures not_dotted { dot_and_name None ≡ [] }
    ensures some_dotted { (name : NameTree) → dot_and_name (Some name)
        ≡ Mark S.Dot ∷ Named name ∷ [] }
    ensures no_arguments { arguments [] ≡ [] }
    ensures some_arguments { (e : ExpressionTree) (es : List ExpressionTree)
        → arguments (e ∷ es) ≡ expression e ++ flat_map (λ d. Mark S.Comma ∷ expression d) es }
    ensures expression { (c : ConjunctionTree) (cs : ConjunctionTrees)
        → expression (AnyOf c cs) ≡ conjunction c ++ more_conjunctions cs }
    ensures no_more_conjunctions { more_conjunctions NoConjunctions ≡ [] }
    ensures some_more_conjunctions { (c : ConjunctionTree) (cs : ConjunctionTrees)
        → more_conjunctions (OrElse c cs) ≡ Word K.Or ∷ conjunction c ++ more_conjunctions cs }
    ensures conjunction { (r : RelationTree) (rs : RelationTrees)
        → conjunction (AllOf r rs) ≡ relation r
        ++ more_relations rs }
    ensures no_more_relations { more_relations NoRelations ≡ [] }
    ensures some_more_relations { (r : RelationTree) (rs : RelationTrees)
        → more_relations (AndAlso r rs) ≡ Word K.And ∷ relation r ++ more_relations rs }
    ensures relation { (s : SumTree) (c : ComparisonTree)
        → relation (Relates s c) ≡ sum_of_terms s ++ comparison c }
    ensures no_comparison { comparison NoComparison ≡ [] }
    ensures some_comparison { (sign : Comparator) (s : SumTree)
        → comparison (Compares sign s) ≡ comparator_text sign
        ∷ sum_of_terms s }
    ensures equal { comparator_text C.Equal ≡ Mark S.Equal }
    ensures not_equal { comparator_text C.NotEqual ≡ Mark S.NotEqual }
    ensures less { comparator_text C.Less ≡ Mark S.Less }
    ensures less_equal { comparator_text C.LessEqual ≡ Mark S.LessEqual }
    ensures greater { comparator_text C.Greater ≡ Mark S.Greater }
    ensures greater_equal { comparator_text C.GreaterEqual ≡ Mark S.GreaterEqual }
    ensures sum_of_terms { (t : TermTree) (ts : SummandTrees)
        → sum_of_terms (Total t ts) ≡ term t ++ more_terms ts }
    ensures no_more_terms { more_terms NoSummands ≡ [] }
    ensures some_more_terms { (sign : SumOperator) (place : Place) (t : TermTree)
        (ts : SummandTrees)
        → more_terms (Adds sign place t ts) ≡ sum_sign sign place ∷ term t ++ more_terms ts }
    ensures plus_sign { (place : Place) → sum_sign PlusSign place ≡ MarkAt S.Plus place }
    ensures minus_sign { (place : Place) → sum_sign MinusSign place ≡ MarkAt S.Minus place }
    ensures term { (f : FactorTree) (fs : MultiplierTrees)
        → term (Product f fs) ≡ factor f ++ more_factors fs }
    ensures no_more_factors { more_factors NoMultipliers ≡ [] }
    ensures some_more_factors { (sign : ProductOperator) (f : FactorTree) (fs : MultiplierTrees)
        → more_factors (Scales sign f fs) ≡ product_sign sign ∷ factor f ++ more_factors fs }
    ensures times { product_sign P.Times ≡ Mark S.Times }
    ensures divide { product_sign P.Divide ≡ Mark S.Divide }
    ensures modulo { product_sign P.Mod ≡ Word K.Mod }
    ensures number { (n : Number) → factor (Constant n) ≡ Numbered n ∷ [] }
    ensures truth { (t : Truth) → factor (Truthful t) ≡ bool_lexeme t.value t.place ∷ [] }
    ensures true_word { (place : Place) → bool_lexeme true place ≡ WordAt K.True place }
    ensures false_word { (place : Place) → bool_lexeme false place ≡ WordAt K.False place }
    ensures variable { (name : NameTree) (i : IndexTree)
        → factor (Reads name i) ≡ Named name ∷ index i }
    ensures group { (place : Place) (e : ExpressionTree)
        → factor (Group place e) ≡ MarkAt S.OpenParen place
        ∷ expression e ++ Mark S.CloseParen ∷ [] }
    ensures minus { (place : Place) (f : FactorTree)
        → factor (Minus place f) ≡ MarkAt S.Minus place ∷ factor f }
    ensures negation { (place : Place) (f : FactorTree)
        → factor (Not place f) ≡ WordAt K.Not place ∷ factor f }
    ensures no_index { index NoIndex ≡ [] }
    ensures some_index { (e : ExpressionTree) → index (At e) ≡ Mark S.OpenBracket ∷ expression e
        ++ Mark S.CloseBracket ∷ [] }
{}
