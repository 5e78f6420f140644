// The worked recipe.
ghost use Rattle.recipe.specs.Worked.{WorkedRecipe};

/// Start 1 with 8 processors and 1,024 words begins with R by 4 at 364.
pub fn worked_recipe_stands()
    ensures { WorkedRecipe }
{}
